//! Values that are made of what is required: what they are written as.
use openapi_test_support::trees::check_written;
use openapiv3::{
    APIKeyLocation, ArrayType, AuthorizationCodeOAuth2Flow, ClientCredentialsOAuth2Flow, Header,
    ImplicitOAuth2Flow, IntegerType, Link, LinkOperation, OAuth2Flows, OrderedMap, Parameter,
    ParameterData, ParameterSchemaOrContent, PasswordOAuth2Flow, ReferenceOr, Schema, SchemaKind,
    SecurityScheme, ToNode, Type,
};
use std::test::Fail;

/// Checks what a value is written as.
fn check_made<T: ToNode + Drop>(rt: &HostRuntime, value: T, wanted: &str) -> Result<(), Fail> {
    check_written(rt, value.to_node(rt.alloc()), Ok(wanted))
}

/// Returns an owned text.
fn text(rt: &HostRuntime, text: &str) -> Result<String, Fail> {
    Ok(String::from_str(rt.alloc(), text)?)
}

#[test]
fn flows_are_made(rt: HostRuntime) -> Result<(), Fail> {
    let alloc = rt.alloc();
    let url = text(&rt, "a")?;
    let flow = ImplicitOAuth2Flow::new(alloc, url, OrderedMap::new(alloc));
    check_made(&rt, flow, r#"{"authorizationUrl":"a","scopes":{}}"#)?;
    let url = text(&rt, "t")?;
    let flow = PasswordOAuth2Flow::new(alloc, url, OrderedMap::new(alloc));
    check_made(&rt, flow, r#"{"tokenUrl":"t","scopes":{}}"#)?;
    let url = text(&rt, "t")?;
    let flow = ClientCredentialsOAuth2Flow::new(alloc, url, OrderedMap::new(alloc));
    check_made(&rt, flow, r#"{"tokenUrl":"t","scopes":{}}"#)?;
    let (url, token_url) = (text(&rt, "a")?, text(&rt, "t")?);
    let flow = AuthorizationCodeOAuth2Flow::new(alloc, url, token_url, OrderedMap::new(alloc));
    let wanted = r#"{"authorizationUrl":"a","tokenUrl":"t","scopes":{}}"#;
    check_made(&rt, flow, wanted)
}

#[test]
fn security_schemes_are_made(rt: HostRuntime) -> Result<(), Fail> {
    let alloc = rt.alloc();
    let scheme = SecurityScheme::api_key(alloc, APIKeyLocation::Header, text(&rt, "n")?);
    check_made(&rt, scheme, r#"{"type":"apiKey","in":"header","name":"n"}"#)?;
    let scheme = SecurityScheme::http(alloc, text(&rt, "basic")?);
    check_made(&rt, scheme, r#"{"type":"http","scheme":"basic"}"#)?;
    let scheme = SecurityScheme::oauth2(alloc, OAuth2Flows::new(alloc));
    check_made(&rt, scheme, r#"{"type":"oauth2","flows":{}}"#)?;
    let scheme = SecurityScheme::open_id_connect(alloc, text(&rt, "u")?);
    let wanted = r#"{"type":"openIdConnect","openIdConnectUrl":"u"}"#;
    check_made(&rt, scheme, wanted)
}

/// Returns how a parameter or a header is described: by the schema of integers.
fn format(rt: &HostRuntime) -> ParameterSchemaOrContent {
    let integers = SchemaKind::Typed(Type::Integer(IntegerType::new(rt.alloc())));
    ParameterSchemaOrContent::Schema(ReferenceOr::Item(Schema::new(rt.alloc(), integers)))
}

/// Returns what a parameter has wherever it is.
fn data(rt: &HostRuntime) -> Result<ParameterData, Fail> {
    let name = text(rt, "p")?;
    Ok(ParameterData::new(rt.alloc(), name, format(rt)))
}

#[test]
fn parameters_are_made(rt: HostRuntime) -> Result<(), Fail> {
    let wanted = r#"{"in":"query","name":"p","schema":{"type":"integer"},"style":"form"}"#;
    check_made(&rt, Parameter::query(data(&rt)?), wanted)?;
    let wanted = r#"{"in":"header","name":"p","schema":{"type":"integer"},"style":"simple"}"#;
    check_made(&rt, Parameter::header(data(&rt)?), wanted)?;
    let wanted =
        r#"{"in":"path","name":"p","required":true,"schema":{"type":"integer"},"style":"simple"}"#;
    check_made(&rt, Parameter::path(data(&rt)?), wanted)?;
    let wanted = r#"{"in":"cookie","name":"p","schema":{"type":"integer"},"style":"form"}"#;
    check_made(&rt, Parameter::cookie(data(&rt)?), wanted)
}

#[test]
fn headers_and_links_are_made(rt: HostRuntime) -> Result<(), Fail> {
    let header = Header::new(rt.alloc(), format(&rt));
    check_made(
        &rt,
        header,
        r#"{"style":"simple","schema":{"type":"integer"}}"#,
    )?;
    let operation = LinkOperation::OperationId(text(&rt, "o")?);
    check_made(
        &rt,
        Link::new(rt.alloc(), operation),
        r#"{"operationId":"o"}"#,
    )
}

#[test]
fn arrays_are_made(rt: HostRuntime) -> Result<(), Fail> {
    let items = ReferenceOr::ref_(rt.alloc(), "#/components/schemas/Pet")?;
    let pets = SchemaKind::Typed(Type::Array(ArrayType::new(items)));
    let wanted = r##"{"type":"array","items":{"$ref":"#/components/schemas/Pet"}}"##;
    check_made(&rt, Schema::new(rt.alloc(), pets), wanted)
}
