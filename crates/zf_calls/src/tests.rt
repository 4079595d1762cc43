//! Tests of single calls, and of runs over devices.
mod answers;
mod calls;
mod chunks;
mod fronts;
mod holds;
mod program;
mod runs;
mod searches;
mod sources;
mod stops;
