// Whether a taboo list bars a name.
ghost use Rattle.std.specs.Prelude.{◌≡◌, ◌↔◌, true, Any};
ghost use Rattle.std.specs.Str.{chars};
ghost use Rattle.lr_rules.specs.Match.{Matches, EndsWith};
ghost use Rattle.lr_rules.specs.Names.{ends_with};
ghost use Rattle.lr_match.specs.Taboos.{Bars};

use crate::pattern::matches;
use crate::taboo::Taboo;
use lr_rules::Text;

fn is_end(bytes: &[u8], end: &[u8]) -> bool
    ensures { result ≡ ends_with end.now bytes.now }
{
    end.len() <= bytes.len() && &bytes[bytes.len() - end.len()..] == end
}

// Whether the bytes end with these.
fn ends_with(bytes: &[u8], end: &[u8]) -> bool
    ensures { (result ≡ true) ↔ EndsWith bytes.now end.now }
{
    is_end(bytes, end)
}

fn has_end(extensions: &[Text], name: &[u8]) -> bool
    ensures { (result ≡ true) ↔ Any (λ end. EndsWith name.now end) extensions.now }
{
    for end in extensions {
        if ends_with(name, end.bytes()) {
            return true;
        }
    }
    false
}

fn has_match(patterns: &[Text], name: &str) -> bool
    ensures { (result ≡ true) ↔ Any (λ pattern. Matches true (chars pattern) (chars name.now)) patterns.now }
{
    for pattern in patterns {
        if matches(pattern.as_str(), name) {
            return true;
        }
    }
    false
}

impl Taboo {
    /// Whether the name ends with an extension of the list, or a pattern of it matches the name. It takes no memory.
    pub fn bars(&self, name: &str) -> bool
        ensures { (result ≡ true) ↔ Bars self.now name.now }
    {
        has_end(self.extensions.as_slice(), name.as_bytes())
            || has_match(self.patterns.as_slice(), name)
    }
}
