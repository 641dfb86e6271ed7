//! The NLM front: what a record of ONC RPC is answered, over the core.
#![tactic(auto)]

mod aim;
mod answers;
mod asks;
mod call;
pub mod call_laws;
mod deeds;
mod effects;
mod front;
pub mod grace_laws;
mod grant;
pub mod law;
mod layers;
mod outcome;
mod plan;
mod procedures;
mod ranges;
mod results;
mod shares;
mod standing;
mod step;

pub use aim::Aim;
pub use answers::nlm_called;
pub use call::GrantedCall;
pub use effects::shown;
pub use front::Front;
pub use grant::Grant;
pub use layers::NlmLayers;
pub use outcome::Outcome;
pub use step::nlm_step;
