// What taboo lists say.
ghost use Rattle.std.specs.Prelude.{◌≡◌, ◌++◌, OnOk, IfOk, map};
ghost use Rattle.lr_match.specs.Taboos.{first_taboo, taboo_after, list_after};

use crate::taboo::Taboo;
use lr_rules::{Listed, Memory, Text, copy_texts, push_text};
use std::alloc::Global;

// The extensions to begin with, in order.
static FIRST: [&str; 17] = [
    ",v",
    ".cfsaved",
    ".disabled",
    ".dpkg-bak",
    ".dpkg-del",
    ".dpkg-dist",
    ".dpkg-new",
    ".dpkg-old",
    ".dpkg-tmp",
    ".rpmnew",
    ".rpmorig",
    ".rpmsave",
    ".swp",
    ".ucf-dist",
    ".ucf-new",
    ".ucf-old",
    "~",
];

fn texts_of(alloc: Global, words: &[&str]) -> Result<Listed<Text>, Memory>
    ensures { IfOk result (λ texts. texts ≡ map (λ word. word.now) words.now) }
{
    let mut texts = Vec::new(alloc);
    for word in words {
        push_text(alloc, &mut texts, word.as_bytes())?;
    }
    Ok(Listed::from_vec(texts))
}

fn add_texts(alloc: Global, into: &mut Vec<Text>, texts: &[Text]) -> Result<(), Memory>
    ensures { OnOk result (into.new.items ≡ into.old.items ++ texts.now) }
{
    for text in texts {
        into.push(text.copy(alloc)?)?;
    }
    Ok(())
}

fn list_after(
    alloc: Global,
    adding: bool,
    old: &[Text],
    items: &[Text],
) -> Result<Listed<Text>, Memory>
    ensures { IfOk result (λ list. list ≡ list_after adding old.now items.now) }
{
    let mut list = Vec::new(alloc);
    if adding {
        add_texts(alloc, &mut list, old)?;
    }
    add_texts(alloc, &mut list, items)?;
    Ok(Listed::from_vec(list))
}

impl Taboo {
    /// The list to begin with: the extensions that logrotate(8) names, and no patterns.
    pub fn first(alloc: Global) -> Result<Taboo, Memory>
        ensures { IfOk result (λ taboo. taboo ≡ first_taboo) }
    {
        let extensions = texts_of(alloc, &FIRST)?;
        Ok(Taboo {
            extensions,
            patterns: Listed::new(alloc),
        })
    }

    /// The list behind a `tabooext`, or with `patterns` a `taboopat`, of these items: they replace the extensions or the
    /// patterns, or with `adding` stand behind them.
    pub fn changed(
        &self,
        alloc: Global,
        items: &[Text],
        patterns: bool,
        adding: bool,
    ) -> Result<Taboo, Memory>
        ensures { IfOk result (λ taboo. taboo ≡ taboo_after self.now items.now patterns adding) }
    {
        if patterns {
            self.with_patterns(alloc, items, adding)
        } else {
            self.with_extensions(alloc, items, adding)
        }
    }

    fn with_patterns(&self, alloc: Global, items: &[Text], adding: bool) -> Result<Taboo, Memory>
        ensures { IfOk result (λ taboo. taboo ≡ record {
          extensions = self.now.extensions;
          patterns = list_after adding self.now.patterns items.now;
        }) }
    {
        let extensions = copy_texts(alloc, self.extensions.as_slice())?;
        let patterns = list_after(alloc, adding, self.patterns.as_slice(), items)?;
        Ok(Taboo {
            extensions,
            patterns,
        })
    }

    fn with_extensions(&self, alloc: Global, items: &[Text], adding: bool) -> Result<Taboo, Memory>
        ensures { IfOk result (λ taboo. taboo ≡ record {
          extensions = list_after adding self.now.extensions items.now;
          patterns = self.now.patterns;
        }) }
    {
        let extensions = list_after(alloc, adding, self.extensions.as_slice(), items)?;
        let patterns = copy_texts(alloc, self.patterns.as_slice())?;
        Ok(Taboo {
            extensions,
            patterns,
        })
    }
}
