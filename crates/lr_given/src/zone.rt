// The zone of a call, as the machine gives it: the variable TZ, the files of zones by their names, and the machine's own zone.
use crate::given::given_text;
use crate::stop::GivenStop;
use lr_due::{Zone, zone_of};
use lr_rules::{Path, PathFault, Text};
use std::alloc::Global;
use std::env::VarError;
use std::{env, fs};

// Where the machine's own zone stands.
const LOCAL: &str = "/etc/localtime";

fn is_file(rt: &HostRuntime, path: &str) -> bool {
    match fs::metadata(rt, path) {
        Ok(seen) => seen.is_file(),
        Err(_) => false,
    }
}

// The machine's own zone, where it has one.
fn local_zone(rt: &HostRuntime, alloc: Global) -> Result<Option<Text>, GivenStop> {
    if is_file(rt, LOCAL) {
        Ok(Some(given_text(alloc, LOCAL.as_bytes())?))
    } else {
        Ok(None)
    }
}

// Whether the value can be a zone's name: a path that leads from the directory of zones to a file below it.
fn is_name(value: &str) -> bool {
    !value.is_empty() && !value.starts_with('/') && !value.contains("..")
}

// The path of the zone of this name, where there is one.
fn named_zone(rt: &HostRuntime, alloc: Global, name: &str) -> Result<Option<Text>, GivenStop> {
    let Ok(path) = format!(in alloc; "/usr/share/zoneinfo/{name}") else {
        return Err(GivenStop::Memory);
    };
    match Path::new(alloc, path.as_bytes()) {
        Ok(path) if is_file(rt, path.as_str()) => Ok(Some(given_text(alloc, path.bytes())?)),
        Err(PathFault::Memory) => Err(GivenStop::Memory),
        _ => Ok(None),
    }
}

// The text of the zone that the variable asks for: the path of the file where it is a zone's name, else itself. UTC needs no
// file.
fn zone_asked(rt: &HostRuntime, alloc: Global, value: &str) -> Result<Text, GivenStop> {
    let name = value.strip_prefix(':').unwrap_or(value);
    if name == "UTC" || !is_name(name) {
        return given_text(alloc, value.as_bytes());
    }
    match named_zone(rt, alloc, name)? {
        Some(path) => Ok(path),
        None => given_text(alloc, value.as_bytes()),
    }
}

// The text of the zone; None for UTC where nothing gives one.
fn zone_text(rt: &HostRuntime, alloc: Global) -> Result<Option<Text>, GivenStop> {
    match env::var(rt, "TZ") {
        Ok(value) => Ok(Some(zone_asked(rt, alloc, value.as_str())?)),
        Err(VarError::NotPresent) => local_zone(rt, alloc),
        Err(VarError::NotUnicode) => Err(GivenStop::BadWords),
        Err(VarError::OutOfMemory) => Err(GivenStop::Memory),
    }
}

/// The zone of the call. Where TZ isn't set it is the machine's own.
pub fn zone_given(rt: &HostRuntime, alloc: Global) -> Result<Zone, GivenStop> {
    let value = zone_text(rt, alloc)?;
    match zone_of(alloc, value.as_ref()) {
        Ok(zone) => Ok(zone),
        Err(PathFault::Memory) => Err(GivenStop::Memory),
        Err(_) => Err(GivenStop::BadWords),
    }
}
