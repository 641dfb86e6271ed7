//! The calls that the server makes.

use xl_matrix::Claim;

/// A call of GRANTED (XNFS C702, NLM_GRANTED) that awaits its answer.
#[derive(Clone, Copy)]
pub struct GrantedCall {
    /// Its number.
    pub number: u32,
    /// The granted range that it sends.
    pub claim: Claim,
}
