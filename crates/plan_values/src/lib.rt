//! plan_values: the values of a plan's texts where they stand.
//!
//! A text stands at a place (`TextPlace`), which sees some of the contexts. A `Scene` makes the value of a
//! context when it is asked, and `Known` keeps what was made and the variables that are seen as `env`: a
//! context's value is made only where a text at hand names it and its place sees it, and none is made twice.
//! `text_at`, `condition_at`, `flag_at`, `env_at` and `outputs_at` give the values of texts, conditions,
//! flags, environments and outputs, as over the whole finite map of the contexts that the place sees;
//! `lay_over` lays one level of names over another, and `env_value` makes a value of variables. All are
//! defined in `specs/`: `Places`, `Values`, `Texts`, `Env` and `Outputs`. The crate stands on `expr_reader`,
//! `expr_value` and `flow_model`.

#![tactic(auto)]

mod env;
mod evaluate;
mod flag;
mod known;
mod laws;
mod levels;
mod make;
mod outputs;
mod own;
mod place;
mod scene;
mod sight;
mod texts;

pub use env::{env_at, env_over_at};
pub use flag::flag_at;
pub use known::Known;
pub use laws::{
    always_holds, env_has_its_names, fault_takes_out_its_output, levels_stay_in_order,
    most_specific_wins, output_stands_in_its_place, place_gives_what_it_sees, text_is_itself,
    truth_is_itself, waits_for_success,
};
pub use levels::lay_over;
pub use make::env_value;
pub use outputs::outputs_at;
pub use own::{is_own_env, is_own_text};
pub use place::TextPlace;
pub use scene::Scene;
pub use texts::{condition_at, text_at};
