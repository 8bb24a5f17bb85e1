//! Lists of types and of parameters: the macros, and the functions beside them.
use scale_info::build::lists::{with_type, with_type_param};
use scale_info::meta_type::HasIdentity;
use scale_info::{named_type_params, tuple_meta_type, type_params};
use std::alloc::AllocError;
use std::test::Fail;
use test_common::shown::{Show, text_of};
use test_memory_common::answers::printed;
use test_memory_common::marked;
use test_memory_common::outcomes::Outcome;

/// What was listed, as a text.
fn shown<T: Show + Drop>(
    rt: &HostRuntime,
    returned: Result<T, AllocError>,
) -> Result<Outcome, Fail> {
    Outcome::of(printed(rt.alloc(), text_of(rt.alloc(), returned)))
}

/// Lists types.
fn types(rt: &HostRuntime) -> Result<Outcome, Fail> {
    let returned = marked!(rt; tuple_meta_type!(rt.alloc(); i32, [u8; 32], String, Vec<u32>));
    shown(rt, returned)
}

/// Lists parameters with names.
fn named_parameters(rt: &HostRuntime) -> Result<Outcome, Fail> {
    let returned = marked!(rt; named_type_params!(rt.alloc(); (T, u8), (U, u32), (V, Vec<u32>)));
    shown(rt, returned)
}

/// Lists parameters of a body.
fn parameters_of<T: HasIdentity, U: HasIdentity, V: HasIdentity>(
    rt: &HostRuntime,
) -> Result<Outcome, Fail> {
    let returned = marked!(rt; type_params!(rt.alloc(); T, U, V));
    shown(rt, returned)
}

/// Lists the parameters `u8`, `u32` and `Vec<u32>`.
fn parameters(rt: &HostRuntime) -> Result<Outcome, Fail> {
    parameters_of::<u8, u32, Vec<u32>>(rt)
}

/// Puts a type at the end of a list.
fn one_type(rt: &HostRuntime) -> Result<Outcome, Fail> {
    let so_far = tuple_meta_type!(rt.alloc(); u32);
    let returned = marked!(rt; with_type::<Vec<u32>>(rt.alloc(), so_far));
    shown(rt, returned)
}

/// Puts a parameter at the end of a list.
fn one_parameter(rt: &HostRuntime) -> Result<Outcome, Fail> {
    let so_far = named_type_params!(rt.alloc(); (T, u8));
    let returned = marked!(rt; with_type_param::<Vec<u32>>(rt.alloc(), so_far, "U"));
    shown(rt, returned)
}

/// Makes the call of this name, which lists types or parameters.
pub fn call(rt: &HostRuntime, name: &str, _input: &str) -> Result<Outcome, Fail> {
    match name {
        "tuple_meta_type!" => types(rt),
        "named_type_params!" => named_parameters(rt),
        "type_params!" => parameters(rt),
        "with_type" => one_type(rt),
        "with_type_param" => one_parameter(rt),
        _ => Err(Fail::new("no call has this name")),
    }
}
