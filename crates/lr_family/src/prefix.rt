// Of names in order of bytes, those that begin alike: they stand side by side.
ghost use Rattle.std.specs.Prelude.{◌≡◌, ◌++◌, ℕ, List, nat_eq, true, All, Contains};
ghost use Rattle.std.specs.Ordering.{nat_cmp, is_lt};
ghost use Rattle.std.specs.Cmp.Lexicographic.{slice_cmp};
ghost use Rattle.std.specs.List.{starts_with};
ghost use Rattle.lr_host.specs.Listing.{NamesRise};

use lr_rules::Text;

fn is_before(name: &Text, base: &[u8]) -> bool
    ensures { result ≡ is_lt (slice_cmp nat_cmp name.now base.now) }
{
    name.bytes().cmp(base).is_lt()
}

fn begins_with(name: &Text, base: &[u8]) -> bool
    ensures { result ≡ starts_with nat_eq name.now base.now }
{
    name.bytes().starts_with(base)
}

/// The names that begin with the base; both ends are found by halving.
pub fn names_with<'a>(names: &'a [Text], base: &[u8]) -> &'a [Text]
    requires { NamesRise names.now }
    ensures among { (name : List ℕ) → Contains result.now name → Contains names.now name }
    ensures all { (rest : List ℕ) → Contains names.now (base.now ++ rest) → Contains result.now (base.now ++ rest) }
    ensures rising { NamesRise result.now }
    ensures begin { All (λ name. starts_with nat_eq name base.now ≡ true) result.now }
{
    let first = names.partition_point(|name| is_before(name, base));
    let rest = &names[first..];
    let end = rest.partition_point(|name| begins_with(name, base));
    &rest[..end]
}
