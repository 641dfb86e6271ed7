//! What those in memory tell of what they did.
ghost use Rattle.std.specs.Prelude.{◌≡◌, [], ◌∷◌, ◌++◌, option_map};
ghost use Rattle.xl_base.specs.Telling.{Follows};

/// What is told with one thing more at its end; if memory runs out, nothing is told any more.
pub(crate) fn told_with<T: Drop>(told: Option<Vec<T>>, item: T) -> Option<Vec<T>>
    ensures { Follows (option_map (λ v. v.items) told) (option_map (λ v. v.items) result) (λ old new. new ≡ old ++ item ∷ []) }
{
    let mut list = told?;
    match list.push(item) {
        Ok(()) => Some(list),
        Err(_) => None,
    }
}
