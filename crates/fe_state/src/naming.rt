/// Names a type to the checker, and does nothing. A body that moves a value into a `Vec` behind a `&mut` has
/// to name what the value holds, where that is a type with an `impl Model` two levels down
/// (`docs/DECISIONS.md`, "Toolchain").
#[inline(always)]
pub fn named<T>() {}
