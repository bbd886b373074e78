#![tactic(auto, unfolding(openapi_tables::specs::Tables::final_tables, openapi_tables::specs::Tables::tables_with))]
//! The objects of OpenAPI 3.0 documents for authentication: security schemes, the flows of OAuth, and security
//! requirements.
mod authorization_code_flow;
mod client_credentials_flow;
mod implicit_flow;
mod new_scheme;
mod oauth2_flows;
mod password_flow;
mod security_requirement;
mod security_scheme;

pub use authorization_code_flow::AuthorizationCodeOAuth2Flow;
pub use client_credentials_flow::ClientCredentialsOAuth2Flow;
pub use implicit_flow::ImplicitOAuth2Flow;
pub use oauth2_flows::OAuth2Flows;
pub use password_flow::PasswordOAuth2Flow;
pub use security_requirement::{
    SecurityRequirement, security_requirement_from_node, security_requirement_to_node,
};
pub use security_scheme::{
    SecurityScheme, security_scheme_ref_from_node, security_scheme_ref_to_node,
};
