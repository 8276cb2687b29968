//! What members and appliers ask of their states, histories give: laws, each a contract of a
//! function without a body.
#![tactic(auto)]

pub mod ready;
