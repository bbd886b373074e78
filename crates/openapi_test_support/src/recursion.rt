//! `ReferenceOr` inside a type that leads back to itself, as schemas do.
use openapi_values::ReferenceOr;
use std::test::Fail;

#[derive(Clone, Debug, PartialEq, Drop)]
enum Chain {
    End,
    Next(ReferenceOr<Box<Chain>>),
}

#[test]
fn holds_itself(rt: HostRuntime) -> Result<(), Fail> {
    let chain = Chain::Next(ReferenceOr::boxed_item(rt.alloc(), Chain::End)?);
    assert_eq!(rt; &chain.clone()?, &chain);
    assert_ne!(rt; &Chain::End, &chain);
    Ok(())
}
