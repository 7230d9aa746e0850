// Values of directives that take one word.
ghost use Rattle.std.specs.Prelude.{◌≡◌, IfOk, Some};
ghost use Rattle.lr_rules.specs.declared.rule.Criterion.TheVariants as criterion;
ghost use Rattle.lr_words.specs.Numbers.{number_value, count_value, size_value};
ghost use Rattle.lr_words.specs.Formats.{format_value};
ghost use Rattle.lr_words.specs.Words.{extension_value, address_value, olddir_value};
ghost use Rattle.lr_forms.specs.declared.set.Set.TheVariants as set;
ghost use Rattle.lr_forms.specs.Says.{texts};
ghost use Rattle.lr_forms.specs.Values.{setting, value_of, sets_or_bad, one_says, weekday_given, day_says};

use crate::form::Value;
use crate::said::LineSaid;
use crate::set::Set;
use lr_lex::Word;
use lr_rules::{ConfKind, Criterion, Memory, Text};
use lr_words::{address, count, extension, format, number, olddir, size, weekday};
use std::alloc::Global;

// ---- numbers

fn count_set(word: &[u8]) -> Result<Set, ConfKind>
    ensures { result ≡ setting set.Count (count_value word.now) }
{
    match count(word) {
        Ok(count) => Ok(Set::Count(count)),
        Err(kind) => Err(kind),
    }
}

fn size_set(word: &[u8]) -> Result<Set, ConfKind>
    ensures { result ≡ setting (λ n. set.Criterion (criterion.Size n)) (size_value word.now) }
{
    match size(word) {
        Ok(size) => Ok(Set::Criterion(Criterion::Size(size))),
        Err(kind) => Err(kind),
    }
}

fn minsize_set(word: &[u8]) -> Result<Set, ConfKind>
    ensures { result ≡ setting set.MinSize (size_value word.now) }
{
    match size(word) {
        Ok(size) => Ok(Set::MinSize(size)),
        Err(kind) => Err(kind),
    }
}

fn maxsize_set(word: &[u8]) -> Result<Set, ConfKind>
    ensures { result ≡ setting set.MaxSize (size_value word.now) }
{
    match size(word) {
        Ok(size) => Ok(Set::MaxSize(size)),
        Err(kind) => Err(kind),
    }
}

fn minage_set(word: &[u8]) -> Result<Set, ConfKind>
    ensures { result ≡ setting set.MinAge (number_value word.now) }
{
    match number(word) {
        Ok(days) => Ok(Set::MinAge(days)),
        Err(kind) => Err(kind),
    }
}

fn maxage_set(word: &[u8]) -> Result<Set, ConfKind>
    ensures { result ≡ setting set.MaxAge (number_value word.now) }
{
    match number(word) {
        Ok(days) => Ok(Set::MaxAge(days)),
        Err(kind) => Err(kind),
    }
}

fn start_set(word: &[u8]) -> Result<Set, ConfKind>
    ensures { result ≡ setting set.Start (number_value word.now) }
{
    match number(word) {
        Ok(start) => Ok(Set::Start(start)),
        Err(kind) => Err(kind),
    }
}

// ---- texts

fn extension_set(alloc: Global, word: &Text) -> Result<Result<Set, ConfKind>, Memory>
    ensures { IfOk result (λ r. r ≡ setting set.Extension (extension_value word.now)) }
{
    match extension(alloc, word)? {
        Ok(ending) => Ok(Ok(Set::Extension(ending))),
        Err(kind) => Ok(Err(kind)),
    }
}

fn addextension_set(alloc: Global, word: &Text) -> Result<Result<Set, ConfKind>, Memory>
    ensures { IfOk result (λ r. r ≡ setting set.AddExtension (extension_value word.now)) }
{
    match extension(alloc, word)? {
        Ok(ending) => Ok(Ok(Set::AddExtension(ending))),
        Err(kind) => Ok(Err(kind)),
    }
}

fn olddir_set(alloc: Global, word: &Text) -> Result<Result<Set, ConfKind>, Memory>
    ensures { IfOk result (λ r. r ≡ setting (λ dir. set.Olddir (Some dir)) (olddir_value word.now)) }
{
    match olddir(alloc, word)? {
        Ok(dir) => Ok(Ok(Set::Olddir(Some(dir)))),
        Err(kind) => Ok(Err(kind)),
    }
}

fn mail_set(alloc: Global, word: &Text) -> Result<Result<Set, ConfKind>, Memory>
    ensures { IfOk result (λ r. r ≡ setting (λ address. set.Mail (Some address)) (address_value word.now)) }
{
    match address(alloc, word)? {
        Ok(address) => Ok(Ok(Set::Mail(Some(address)))),
        Err(kind) => Ok(Err(kind)),
    }
}

#[tactic(auto, using(lr_words::proofs::ReadBack::one_format))]
fn format_set(alloc: Global, word: &[u8]) -> Result<Result<Set, ConfKind>, Memory>
    ensures { IfOk result (λ r. r ≡ setting set.DateFormat (format_value word.now)) }
{
    match format(alloc, word)? {
        Ok(pieces) => Ok(Ok(Set::DateFormat(pieces))),
        Err(kind) => Ok(Err(kind)),
    }
}

// ---- one value

fn value_of(alloc: Global, value: Value, word: &Text) -> Result<Result<Set, ConfKind>, Memory>
    ensures { IfOk result (λ r. r ≡ value_of value word.now) }
{
    match value {
        Value::Count => Ok(count_set(word.bytes())),
        Value::Size => Ok(size_set(word.bytes())),
        Value::MinSize => Ok(minsize_set(word.bytes())),
        Value::MaxSize => Ok(maxsize_set(word.bytes())),
        Value::MinAge => Ok(minage_set(word.bytes())),
        Value::MaxAge => Ok(maxage_set(word.bytes())),
        Value::Start => Ok(start_set(word.bytes())),
        Value::Extension => extension_set(alloc, word),
        Value::AddExtension => addextension_set(alloc, word),
        Value::Olddir => olddir_set(alloc, word),
        Value::Mail => mail_set(alloc, word),
        Value::DateFormat => format_set(alloc, word.bytes()),
    }
}

fn sets_or_bad(set: Result<Set, ConfKind>) -> LineSaid
    ensures { result ≡ sets_or_bad set }
{
    match set {
        Ok(set) => LineSaid::Sets(set),
        Err(kind) => LineSaid::Bad(kind),
    }
}

/// What a directive says that takes one word.
pub(crate) fn one_says(alloc: Global, value: Value, values: &[Word]) -> Result<LineSaid, Memory>
    ensures { IfOk result (λ s. s ≡ one_says value (texts values.now)) }
{
    match values {
        [] => Ok(LineSaid::Quiet),
        [word, ..] => {
            let set = value_of(alloc, value, &word.text)?;
            Ok(sets_or_bad(set))
        }
    }
}

// ---- a day of the week

fn day_of(values: &[Word]) -> Result<u8, ConfKind>
    ensures { result ≡ weekday_given (texts values.now) }
{
    match values {
        [] => Ok(0),
        [word, ..] => weekday(word.text.bytes()),
    }
}

/// What `weekly` says.
pub(crate) fn day_says(values: &[Word]) -> LineSaid
    ensures { result ≡ day_says (texts values.now) }
{
    match day_of(values) {
        Ok(day) => LineSaid::Sets(Set::Criterion(Criterion::Weekly(day))),
        Err(kind) => LineSaid::Bad(kind),
    }
}
