// The table of cases by which a log is due or not.
ghost use Rattle.std.specs.Prelude.{◌≡◌};
ghost use Rattle.lr_due.specs.Due.{age_days, is_young, is_spared_empty, is_above, is_within, size_limit, days_past, is_ahead};
ghost use Rattle.lr_due.specs.Due.{is_on_day, has_passed, has_turned_since, due_of};

use crate::answer::{Due, Why, WhyNot};
use crate::calendar::weekday;
use lr_host::Seen;
use lr_rules::{Civil, Criterion, Moment, Rule};

/// The whole days of 86,400 seconds since the log was written; 0 where that moment is ahead.
fn age_in_days(mtime: i64, now: i64) -> u64
    ensures { result ≡ age_days mtime now }
{
    if mtime > now {
        0
    } else {
        now.abs_diff(mtime) / 86_400
    }
}

/// Whether the log is empty and the rule rotates no empty one.
fn spares_empty(rule: &Rule, size: u64) -> bool
    ensures { result ≡ is_spared_empty rule.now size }
{
    size == 0 && !rule.ifempty
}

fn young(minage: Option<u32>, mtime: i64, now: i64) -> bool
    ensures { result ≡ is_young minage (age_days mtime now) }
{
    match minage {
        Some(days) => age_in_days(mtime, now) < u64::from(days),
        None => false,
    }
}

fn above(limit: Option<u64>, size: u64) -> bool
    ensures { result ≡ is_above limit size }
{
    match limit {
        Some(limit) => size > limit,
        None => false,
    }
}

fn within(limit: Option<u64>, size: u64) -> bool
    ensures { result ≡ is_within limit size }
{
    match limit {
        Some(limit) => size <= limit,
        None => false,
    }
}

/// The size of a criterion by size.
fn limit_of(criterion: Criterion) -> Option<u64>
    ensures { result ≡ size_limit criterion }
{
    match criterion {
        Criterion::Size(limit) => Some(limit),
        _ => None,
    }
}

/// Whether the state's moment is more than so many civil seconds ahead.
fn ahead(seconds: i64, last: Option<Civil>, now: &Civil) -> bool
    ensures { result ≡ is_ahead seconds last now.now }
{
    match last {
        Some(last) => last.seconds_since(now) > seconds,
        None => false,
    }
}

fn turned_since(criterion: Criterion, last: Option<Civil>, now: &Civil) -> bool
    ensures { result ≡ has_turned_since criterion last now.now }
{
    match last {
        Some(last) => turned(criterion, &last, now),
        None => false,
    }
}

/// Whether the hour, day, week, month or year of the criterion has passed since `last`.
fn turned(criterion: Criterion, last: &Civil, now: &Civil) -> bool
    ensures { result ≡ has_passed criterion last.now now.now }
{
    let same_month = now.year == last.year && now.month == last.month;
    let same_date = same_month && now.day == last.day;
    match criterion {
        Criterion::Hourly => !(same_date && now.hour == last.hour),
        Criterion::Daily => !same_date,
        Criterion::Weekly(day) => week_turned(day, last, now),
        Criterion::Monthly => !same_month,
        Criterion::Yearly => now.year != last.year,
        Criterion::Size(_) => false,
    }
}

/// Whether it is the day of the week; 7 is none.
fn on_day(day: u8, now: &Civil) -> bool
    ensures { result ≡ is_on_day day now.now }
{
    day < 7 && weekday(now) == day
}

fn dates_between(last: &Civil, now: &Civil) -> i64
    ensures { result ≡ days_past now.now last.now }
{
    now.day_number() - last.day_number()
}

/// Whether seven days have passed, or it is the day of the week and a later date.
fn week_turned(day: u8, last: &Civil, now: &Civil) -> bool
    ensures { result ≡ has_passed (Criterion.Weekly day) last.now now.now }
{
    let days = dates_between(last, now);
    if days >= 7 {
        return true;
    }
    on_day(day, now) && days >= 1
}

/// Whether a log that was seen so is due now, where the state has `last` as the moment of its last rotation: the answer
/// of the first case that applies. Of what was seen, its size (bytes) and its modification moment (seconds since 1970)
/// count. The directives are those of logrotate(8).
#[tactic(auto, unfolding(crate::specs::Due::due_of))]
pub fn due(rule: &Rule, seen: &Seen, last: Option<Civil>, now: &Moment, force: bool) -> Due
    ensures { result ≡ due_of rule.now seen.now.size seen.now.mtime last now.now force }
{
    let size = seen.size;
    let mtime = seen.mtime;
    if spares_empty(rule, size) {
        return Due::No(WhyNot::Empty);
    }
    if young(rule.minage, mtime, now.seconds) {
        return Due::No(WhyNot::Young);
    }
    if force {
        return Due::Yes(Why::Forced);
    }
    if above(rule.maxsize, size) {
        return Due::Yes(Why::MaxSize);
    }
    let limit = limit_of(rule.criterion);
    if above(limit, size) {
        return Due::Yes(Why::Size);
    }
    if limit.is_some() {
        return Due::No(WhyNot::Small);
    }
    if last.is_none() {
        return Due::No(WhyNot::Early);
    }
    if ahead(90_000, last, &now.civil) {
        return Due::Yes(Why::Future);
    }
    if ahead(0, last, &now.civil) {
        return Due::No(WhyNot::Early);
    }
    if !turned_since(rule.criterion, last, &now.civil) {
        return Due::No(WhyNot::Early);
    }
    if within(rule.minsize, size) {
        return Due::No(WhyNot::Small);
    }
    Due::Yes(Why::Calendar)
}
