#![tactic(auto)]
//! Tests of the parts below the core: matrix, spans, table, queue, names, what the fronts keep, and what all layers share.

#[cfg(test)]
mod parts;
