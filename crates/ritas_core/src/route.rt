//! By which of three broadcasts a slot goes.

/// By which broadcast a slot goes: reliable broadcast with values, or with digests, or the core's other one.
#[derive(Clone, Copy, Debug, PartialEq, Eq)]
pub enum Route {
    Values,
    Digests,
    Other,
}
