// Faults of a line that begins with a directive.
ghost use Rattle.std.specs.Prelude.{◌≡◌, IfOk};
ghost use Rattle.lr_words.specs.Lists.{taboo_value};
ghost use Rattle.lr_forms.specs.Forms.{form_of};
ghost use Rattle.lr_forms.specs.Says.{texts, is_passed, is_script, is_outside, lists_nothing, lacks_value, has_more, checks};
ghost use Rattle.lr_forms.specs.Says.{first_fault};

use crate::form::{Form, form_of};
use crate::taboo::texts_of;
use lr_lex::Word;
use lr_rules::{ConfKind, Memory};
use lr_tables::Directive;
use lr_words::taboo_items;
use std::alloc::Global;

fn passed(form: &Form) -> bool
    ensures { result ≡ is_passed form.now }
{
    match form {
        Form::Passed => true,
        _ => false,
    }
}

fn script(form: &Form) -> bool
    ensures { result ≡ is_script form.now }
{
    match form {
        Form::Script => true,
        _ => false,
    }
}

fn outside(form: &Form) -> bool
    ensures { result ≡ is_outside form.now }
{
    match form {
        Form::Include => true,
        Form::Taboo { .. } => true,
        _ => false,
    }
}

fn lists_nothing(alloc: Global, values: &[Word]) -> Result<bool, Memory>
    ensures { IfOk result (λ nothing. nothing ≡ lists_nothing (taboo_value (texts values.now))) }
{
    let texts = texts_of(alloc, values)?;
    match taboo_items(alloc, texts.as_slice())? {
        Ok(_) => Ok(false),
        Err(_) => Ok(true),
    }
}

fn lacks_value(alloc: Global, form: &Form, values: &[Word]) -> Result<bool, Memory>
    ensures { IfOk result (λ lacks. lacks ≡ lacks_value form.now (texts values.now)) }
{
    match form {
        Form::One(_) => Ok(values.len() < 1),
        Form::Include => Ok(values.len() < 1),
        Form::Taboo { .. } => lists_nothing(alloc, values),
        _ => Ok(false),
    }
}

fn has_more(form: &Form, values: &[Word]) -> bool
    ensures { result ≡ has_more form.now (texts values.now) }
{
    match form {
        Form::Ending => true,
        Form::Script => true,
        Form::Passed => false,
        Form::Taboo { .. } => false,
        Form::One(_) => values.len() > 1,
        Form::Include => values.len() > 1,
        Form::Day => values.len() > 1,
        Form::Make { .. } => values.len() > 3,
        _ => values.len() > 0,
    }
}

fn first_fault(
    alloc: Global,
    inside: bool,
    brace: bool,
    stray: bool,
    form: &Form,
    values: &[Word],
) -> Result<Option<ConfKind>, Memory>
    ensures { IfOk result (λ fault. fault ≡ first_fault (checks inside brace stray form.now (texts values.now))) }
{
    if !inside && script(form) {
        Ok(Some(ConfKind::OutsideSet))
    } else if inside && outside(form) {
        Ok(Some(ConfKind::InsideSet))
    } else if lacks_value(alloc, form, values)? {
        Ok(Some(ConfKind::MissingValue))
    } else if brace || (stray && !passed(form)) || has_more(form, values) {
        Ok(Some(ConfKind::Stray))
    } else {
        Ok(None)
    }
}

/// The first fault of the line, those of its value aside.
pub(crate) fn fault_of(
    alloc: Global,
    inside: bool,
    brace: bool,
    stray: bool,
    directive: Directive,
    values: &[Word],
) -> Result<Option<ConfKind>, Memory>
    ensures { IfOk result (λ fault. fault ≡ first_fault (checks inside brace stray (form_of directive) (texts values.now))) }
{
    let form = form_of(directive);
    first_fault(alloc, inside, brace, stray, &form, values)
}
