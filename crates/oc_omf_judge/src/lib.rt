//! Judging an OMF object module: the first of its faults, or what was found in it on the way.
#![tactic(auto)]

mod counts;
mod defined;
mod earlier;
mod externals;
mod fixups;
mod front;
mod groups;
mod held;
mod judging;
mod last_data;
mod locals;
mod named;
mod names;
mod pieces;
mod publics;
mod reached;
mod relocs;
mod rows;
mod section_stage;
mod sections;
mod segments;
mod starts;
mod symbol_loop;
mod symbol_stage;
mod threads;
mod whole;

pub use defined::{Defined, name_at};
pub use earlier::{EarlierSymbols, SeenExternal};
pub use front::{Front, judge_front};
pub use judging::{Found, judged};
pub use section_stage::segment_size;
pub use threads::method_of;
