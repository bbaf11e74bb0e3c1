//! The rules, each in a file of its own.

pub mod composite_without;
pub mod custom_directive;
pub mod directive_use;
pub mod fragment_cycle;
pub mod fragment_on;
pub mod introspection;
pub mod leaf_with_selection;
pub mod lone_anonymous;
pub mod no_root;
pub mod repeated_argument;
pub mod repeated_name;
pub mod repeated_variable;
pub mod subscription;
pub mod undefined_variable;
pub mod unknown_argument;
pub mod unknown_directive;
pub mod unknown_field;
pub mod unknown_fragment;
pub mod variable_place;
pub mod variable_type;
