//! The calls by their names, each with its module before a dot.
use crate::{metadata, passes, people, runs, typed, value_texts, values, views};
use std::test::Fail;
use test_common::rows::parted;
use test_memory_borrowed::{borrowed, changes, visits};
use test_memory_build::{constructors, descriptions, fields, macros, paths, variants};
use test_memory_common::outcomes::Outcome;
use test_memory_parts::{copies, interners, lists, looks, moves, orders};
use test_memory_tables::{
    builders, conversions, discoveries, exports, json, prunings, registries, tables, walks,
};
use test_memory_types::{catalogues, errors, identities, registrations};

/// Makes the call of a line: a module, a dot and the name of a call, and after a blank the input.
pub fn call(rt: &HostRuntime, line: &str) -> Result<Outcome, Fail> {
    let (call, input) = line.split_once(' ').unwrap_or((line, ""));
    let (module, name) = parted(call, '.')?;
    match module {
        "builders" => builders::call(rt, name, input),
        "catalogues" => catalogues::call(rt, name, input),
        "changes" => changes::call(rt, name, input),
        "constructors" => constructors::call(rt, name, input),
        "conversions" => conversions::call(rt, name, input),
        "copies" => copies::call(rt, name, input),
        "descriptions" => descriptions::call(rt, name, input),
        "discoveries" => discoveries::call(rt, name, input),
        "errors" => errors::call(rt, name, input),
        "exports" => exports::call(rt, name, input),
        "fields" => fields::call(rt, name, input),
        "identities" => identities::call(rt, name, input),
        "interners" => interners::call(rt, name, input),
        "json" => json::call(rt, name, input),
        "borrowed" => borrowed::call(rt, name, input),
        "lists" => lists::call(rt, name, input),
        "looks" => looks::call(rt, name, input),
        "macros" => macros::call(rt, name, input),
        "metadata" => metadata::call(rt, name, input),
        "moves" => moves::call(rt, name, input),
        "orders" => orders::call(rt, name, input),
        "passes" => passes::call(rt, name, input),
        "paths" => paths::call(rt, name, input),
        "people" => people::call(rt, name, input),
        "prunings" => prunings::call(rt, name, input),
        "registrations" => registrations::call(rt, name, input),
        "registries" => registries::call(rt, name, input),
        "runs" => runs::call(rt, name, input),
        "tables" => tables::call(rt, name, input),
        "typed" => typed::call(rt, name, input),
        "value_texts" => value_texts::call(rt, name, input),
        "values" => values::call(rt, name, input),
        "variants" => variants::call(rt, name, input),
        "views" => views::call(rt, name, input),
        "visits" => visits::call(rt, name, input),
        "walks" => walks::call(rt, name, input),
        _ => Err(Fail::new("no module has this name")),
    }
}
