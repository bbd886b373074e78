//! Laws of the results: each function has no effect at run time, and its contract is the law.
ghost use Rattle.openapi_faults.specs.Laws.{AllTold, DroppedIgnored, NothingWrong, RefusalTold, TagsOfTables, ToldOnce};

/// States that a value has no fault if and only if it conforms to its kind.
pub fn nothing_wrong()
    ensures { NothingWrong }
{}

/// States that the faults are exactly the rules that are broken, each at the location of the value that breaks it.
pub fn all_told()
    ensures { AllTold }
{}

/// States that no fault is reported twice: no two of them have the same location and the same cause.
pub fn told_once()
    ensures { ToldOnce }
{}

/// States that the fault that reading returns is among all faults, unless an allocation failed.
pub fn refusal_told()
    ensures { RefusalTold }
{}

/// States the name of the tag that selects a field table.
///
/// It is `in` for the parameters of a location, and `type` for the types of security schemes and of schemas.
pub fn tags_of_tables()
    ensures { TagsOfTables }
{}

/// States that the same is read of a value without its dropped members, and that nothing more is dropped then.
pub fn dropped_ignored()
    ensures { DroppedIgnored }
{}
