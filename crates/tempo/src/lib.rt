// How the tempo moves from bar to bar (document 02, (vii)): between two durations, and for a sheet and a bar of it.
#![tactic(auto)]

mod between;
mod remark;

pub use between::{Tempo, TempoRecord, tempo_between, tempo_kind, tempo_record};
pub use remark::{Remark, lasting, remark_at, remark_sheet};
