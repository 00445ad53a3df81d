//! Roots of poison: of several that come together the least is handed on.

ghost use Rattle.std.specs.Prelude.{◌≡◌, min};
ghost use Rattle.std.specs.Option.{option_map_or};

/// The lesser of a root and the least before it, of which there may be none.
pub fn lesser(least: Option<u32>, root: u32) -> u32
    ensures { result ≡ option_map_or (λ before. min before root) least root }
{
    match least {
        Some(least) => least.min(root),
        None => root,
    }
}
