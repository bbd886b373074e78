//! A walk over all that is required in a JSON value.
ghost use Rattle.std.specs.Prelude.{◌≡◌, ◌+◌, ◌*◌, ◌≤◌, [], ◌∷◌, None, Some, OnOk, map};
ghost use Rattle.openapi_node.specs.Place.{named};
ghost use Rattle.std.specs.Option.{option_copied};
ghost use Rattle.openapi_node.specs.Tree.{find, items_of, items_size, members_of, members_size, object, size_of};
ghost use Rattle.openapi_node.specs.View.{shown};
ghost use Rattle.openapi_tables.specs.ByRow.{asking, row_weight, rows_weight};
ghost use Rattle.openapi_tables.specs.Faults.{asked, below, words};
ghost use Rattle.openapi_tables.specs.Kind.{one_of};
ghost use Rattle.openapi_tables.specs.Tables.{final_tables};
ghost use Rattle.openapi_faults.specs.Meaning.{cases_of, kind_of, row_of, tag_name, tagged_of};
ghost use Rattle.openapi_faults.specs.Walk.{Visits, accesses, accesses_inside, asked_entries, asked_inside, asked_items};
ghost use Rattle.openapi_faults.specs.Walk.{asked_below, asked_member, asked_optional, asked_row, asked_rows};
ghost use Rattle.openapi_faults.specs.Walk.{entries_size, is_chosen, member_size};
ghost use Rattle.openapi_faults.specs.Walk.{reference_text, rows_as, step_of};

use crate::kind::{Inside, Kind};
use crate::members::{first_of_two, is_among, kind_by_name, reference_in};
use crate::row::{Class, Row};
use crate::step::Step;
use crate::table::TableName;
use crate::tag::Tag;
use openapi_node::{Members, Node, Steps, View, find_member};
use std::alloc::AllocError;

/// What a walk calls for each kind that is required of a value.
pub trait Visitor {
    ghost use Rattle.openapi_tables.specs.Faults.{Asking};

    // The effect of a visit: the visitor before, which kind is required of which value at which location, and the
    // visitor after.
    ghost Takes: { Self → Asking → Self → Type 0 };

    /// Visits a value at a location, of which a kind is required. `reference` is the text of the reference that
    /// replaces the value, if the kind allows one.
    ///
    /// # Errors
    ///
    /// Returns [`AllocError`] if an allocation fails.
    fn visit(
        &mut self,
        place: &[Step<'_>],
        kind: Kind,
        view: &View<'_>,
        reference: Option<&str>,
    ) -> Result<(), AllocError>
        requires { option_copied reference ≡ reference_text (kind_of kind) (shown view.now) }
        ensures { OnOk result (Takes self.old (asking (map step_of place.now) (kind_of kind) (shown view.now)) self.new) };
}

/// A walk, with the location at which it is.
pub struct Walk<'a, V> {
    /// What is called for each value.
    pub visitor: V,
    pub(crate) place: Vec<Step<'a>>,
}

impl<'a, V: Visitor> Walk<'a, V> {
    /// Visits a value, and all values in it.
    pub(crate) fn value(
        &mut self,
        kind: Kind,
        node: &'a Node,
        steps: &mut Steps,
    ) -> Result<(), AllocError>
        ensures visits { OnOk result (Visits V.Takes (asked final_tables (kind_of kind) node.now) self.old self.new) }
        ensures rises { steps.old ≤ steps.new }
        ensures count { steps.new ≤ steps.old + 3 * size_of node.now }
    {
        let view = node.open(steps);
        self.shown(kind, &view, steps)
    }

    /// Visits a value that was opened, and all values in it.
    #[cycle(walk)]
    fn shown(&mut self, kind: Kind, view: &View<'a>, steps: &mut Steps) -> Result<(), AllocError>
        ensures visits { OnOk result (Visits V.Takes (asked final_tables (kind_of kind) (shown view.now)) self.old self.new) }
        ensures rises { steps.old ≤ steps.new }
        ensures count { steps.new + 3 ≤ steps.old + 3 * size_of (shown view.now) + accesses (kind_of kind) }
    {
        let reference = reference_in(kind, view, steps);
        self.visitor
            .visit(self.place.as_slice(), kind, view, reference)?;
        if reference.is_some() {
            Ok(())
        } else {
            self.inside(kind, view, steps)
        }
    }

    /// Visits what is required inside a value that is no reference.
    #[cycle(walk)]
    fn inside(&mut self, kind: Kind, view: &View<'a>, steps: &mut Steps) -> Result<(), AllocError>
        requires { reference_text (kind_of kind) (shown view.now) ≡ None }
        ensures visits { OnOk result (Visits V.Takes (asked_inside (kind_of kind) (shown view.now)) self.old self.new) }
        ensures rises { steps.old ≤ steps.new }
        ensures count { steps.new + 3 ≤ steps.old + 3 * size_of (shown view.now) + accesses_inside (kind_of kind) }
    {
        match kind.inside() {
            Inside::Nothing => Ok(()),
            Inside::Item(item) => self.shown(item, view, steps),
            Inside::Items(item) => match view {
                View::List(items) => self.items(item, items, steps),
                _ => Ok(()),
            },
            Inside::Members(value) => match view {
                View::Object(members) => self.entries(None, value, members, steps),
                _ => Ok(()),
            },
            Inside::Rows(table) => match view {
                View::Object(members) => self.rows(table.rows(), false, members, steps),
                _ => Ok(()),
            },
            Inside::Tagged(tag) => match view {
                View::Object(members) => self.tagged(tag, members, steps),
                _ => Ok(()),
            },
            Inside::Schema => match view {
                View::Object(_) => self.shown(Kind::SchemaOrRef, view, steps),
                _ => Ok(()),
            },
            Inside::SchemaRows => match view {
                View::Object(members) => {
                    self.rows(TableName::SchemaData.rows(), false, members, steps)?;
                    self.rows(TableName::AnySchema.rows(), true, members, steps)
                }
                _ => Ok(()),
            },
            Inside::TypeRows => match view {
                View::Object(members) => self.rows(
                    TableName::AnySchema.rows(),
                    true,
                    members,
                    steps,
                ),
                _ => Ok(()),
            },
        }
    }

    /// Visits the items of an array.
    #[cycle(walk)]
    fn items(&mut self, kind: Kind, items: &'a [Node], steps: &mut Steps) -> Result<(), AllocError>
        ensures visits { OnOk result (Visits V.Takes (asked_items (kind_of kind) 0 items.now) self.old self.new) }
        ensures rises { steps.old ≤ steps.new }
        ensures count { steps.new ≤ steps.old + 3 * items_size (items_of items.now) }
    {
        for index in 0..items.len() {
            self.below(Step::Index(index), kind, &items[index], steps)?;
        }
        Ok(())
    }

    /// Visits a value one step below, and all values in it.
    #[cycle(walk)]
    fn below(
        &mut self,
        step: Step<'a>,
        kind: Kind,
        node: &'a Node,
        steps: &mut Steps,
    ) -> Result<(), AllocError>
        ensures visits { OnOk result (Visits V.Takes (asked_below (step_of step.entry) (kind_of kind) node.now) self.old self.new) }
        ensures rises { steps.old ≤ steps.new }
        ensures count { steps.new ≤ steps.old + 3 * size_of node.now }
    {
        let view = node.open(steps);
        self.shown_below(step, kind, &view, steps)
    }

    /// Visits a value one step below that was opened, and all values in it.
    #[cycle(walk)]
    fn shown_below(
        &mut self,
        step: Step<'a>,
        kind: Kind,
        view: &View<'a>,
        steps: &mut Steps,
    ) -> Result<(), AllocError>
        ensures visits { OnOk result (Visits V.Takes (asked_below (step_of step.entry) (kind_of kind) (shown view.now)) self.old self.new) }
        ensures rises { steps.old ≤ steps.new }
        ensures count { steps.new + 3 ≤ steps.old + 3 * size_of (shown view.now) + accesses (kind_of kind) }
    {
        self.place.push(step)?;
        self.shown(kind, view, steps)?;
        self.place.pop();
        Ok(())
    }

    /// Visits the members of an object whose names are of a class, or all of them.
    #[cycle(walk)]
    fn entries(
        &mut self,
        class: Option<Class>,
        kind: Kind,
        members: &'a Members,
        steps: &mut Steps,
    ) -> Result<(), AllocError>
        ensures visits { OnOk result (Visits V.Takes (asked_entries (is_chosen class) (kind_of kind) members.now) self.old self.new) }
        ensures rises { steps.old ≤ steps.new }
        ensures count { steps.new ≤ steps.old + 3 * entries_size (is_chosen class) members.now }
    {
        for i in 0..members.len() {
            let (name, node) = members.entry_at(i);
            if is_among(class, name) {
                self.below(Step::Name(name), kind, node, steps)?;
            }
        }
        Ok(())
    }

    /// Visits what the rows of a table require. If they are open, each member may be missing or `null`.
    #[cycle(walk)]
    fn rows(
        &mut self,
        rows: &[Row],
        is_open: bool,
        members: &'a Members,
        steps: &mut Steps,
    ) -> Result<(), AllocError>
        ensures visits { OnOk result (Visits V.Takes (asked_rows (rows_as is_open rows.now) (members_of members.now)) self.old self.new) }
        ensures rises { steps.old ≤ steps.new }
        ensures count { steps.new ≤ steps.old + 3 * rows_weight (rows_as is_open rows.now) (members_of members.now) }
    {
        for i in 0..rows.len() {
            let row = rows[i].made_optional_if(is_open);
            self.row(row, members, steps)?;
        }
        Ok(())
    }

    /// Visits what a row requires.
    #[cycle(walk)]
    #[tactic(auto, using(crate::proofs::Rows::optional_asks, crate::proofs::Rows::member_asks, crate::proofs::Rows::member_weight, crate::proofs::Rows::class_asks, crate::proofs::Rows::class_weight, crate::proofs::Rows::either_asks, crate::proofs::Rows::either_none, crate::proofs::Rows::either_weight))]
    fn row(&mut self, row: Row, members: &'a Members, steps: &mut Steps) -> Result<(), AllocError>
        ensures visits { OnOk result (Visits V.Takes (asked_row (row_of row) (members_of members.now)) self.old self.new) }
        ensures rises { steps.old ≤ steps.new }
        ensures count { steps.new ≤ steps.old + 3 * row_weight (row_of row) (members_of members.now) }
    {
        match row {
            Row::Optional(name, kind) => self.optional(name, kind, members, steps),
            Row::Nullable(name, kind) => self.optional(name, kind, members, steps),
            Row::Required(name, kind) => self.member(name, kind, members, steps),
            Row::Listed(name, kind) => self.member(name, kind, members, steps),
            Row::Styled(name, _, kind) => self.member(name, kind, members, steps),
            Row::Format(name, kind) => self.member(name, kind, members, steps),
            Row::Flag(name) => self.member(name, Kind::Flag, members, steps),
            Row::Either(first, one, second, other) => {
                match first_of_two(members, first, second) {
                    Some((name, node)) => {
                        let kind = kind_by_name(first, one, other, name);
                        self.below(Step::Name(name), kind, node, steps)
                    }
                    None => Ok(()),
                }
            }
            Row::Names(class, kind) => self.entries(Some(class), kind, members, steps),
        }
    }

    /// Visits the member of a name, if there is one.
    #[cycle(walk)]
    fn member(
        &mut self,
        name: &'static str,
        kind: Kind,
        members: &'a Members,
        steps: &mut Steps,
    ) -> Result<(), AllocError>
        ensures visits { OnOk result (Visits V.Takes (asked_member name.entry.now (kind_of kind) (members_of members.now)) self.old self.new) }
        ensures rises { steps.old ≤ steps.new }
        ensures count { steps.new ≤ steps.old + 3 * member_size name.entry.now (members_of members.now) }
    {
        match find_member(members, name) {
            Some(node) => self.below(Step::Name(name), kind, node, steps),
            None => Ok(()),
        }
    }

    /// Visits the member of a name, if there is one that is not `null`.
    #[cycle(walk)]
    fn optional(
        &mut self,
        name: &'static str,
        kind: Kind,
        members: &'a Members,
        steps: &mut Steps,
    ) -> Result<(), AllocError>
        ensures visits { OnOk result (Visits V.Takes (asked_optional name.entry.now (kind_of kind) (members_of members.now)) self.old self.new) }
        ensures rises { steps.old ≤ steps.new }
        ensures count { steps.new ≤ steps.old + 3 * member_size name.entry.now (members_of members.now) }
    {
        match find_member(members, name) {
            Some(node) => {
                let view = node.open(steps);
                if view.is_null() {
                    return Ok(());
                }
                self.shown_below(Step::Name(name), kind, &view, steps)
            }
            None => Ok(()),
        }
    }

    /// Visits the tag of an object, and what the rows of the table require that it selects.
    #[cycle(walk)]
    fn tagged(
        &mut self,
        tag: Tag,
        members: &'a Members,
        steps: &mut Steps,
    ) -> Result<(), AllocError>
        ensures visits { OnOk result (Visits V.Takes (asked_inside (tagged_of tag) (object (members_of members.now))) self.old self.new) }
        ensures rises { steps.old ≤ steps.new }
        ensures count { steps.new ≤ steps.old + 3 * members_size (members_of members.now) + 1 }
    {
        match find_member(members, tag.name()) {
            Some(node) => self.by_tag(tag, node, members, steps),
            None => Ok(()),
        }
    }

    /// Visits the tag of an object, which it has, and what the rows of the table require that it selects.
    #[cycle(walk)]
    fn by_tag(
        &mut self,
        tag: Tag,
        node: &'a Node,
        members: &'a Members,
        steps: &mut Steps,
    ) -> Result<(), AllocError>
        requires { Some node.now ≡ find (tag_name tag) (members_of members.now) }
        ensures visits { OnOk result (Visits V.Takes (asked_inside (tagged_of tag) (object (members_of members.now))) self.old self.new) }
        ensures rises { steps.old ≤ steps.new }
        ensures count { steps.new ≤ steps.old + 3 * members_size (members_of members.now) + 1 }
    {
        let view = node.open(steps);
        self.tag(tag, &view)?;
        match view.as_text() {
            Some(text) => match tag.table(text) {
                Some(table) => self.shown(Kind::Object(table), &View::Object(members), steps),
                None => Ok(()),
            },
            None => Ok(()),
        }
    }

    /// Visits the tag of an object.
    fn tag(&mut self, tag: Tag, view: &View<'a>) -> Result<(), AllocError>
        ensures { OnOk result (Visits V.Takes (below (named (tag_name tag)) (asking [] (one_of (words (cases_of tag))) (shown view.now) ∷ []))
            self.old self.new) }
    {
        self.place.push(Step::Name(tag.name()))?;
        self.visitor
            .visit(self.place.as_slice(), tag.kind(), view, None)?;
        self.place.pop();
        Ok(())
    }
}
