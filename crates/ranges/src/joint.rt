// Two tests as one, with no branch: a loop over such tests becomes vector code.
ghost use Rattle.std.specs.Prelude.{◌≡◌, true, false};
ghost use Rattle.rules.specs.Lists.{if};

// Both hold.
pub(crate) fn both(a: bool, b: bool) -> bool
    ensures { result ≡ if a b false }
{
    a & b
}

// One of them holds, or both.
pub(crate) fn either(a: bool, b: bool) -> bool
    ensures { result ≡ if a true b }
{
    a | b
}
