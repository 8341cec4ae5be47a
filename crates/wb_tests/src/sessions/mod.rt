//! The index of footprints, worked histories and lines of requests: the crates from `wb_cells` to `wb_machine`.

mod footprints;
mod movers;
mod readers;
mod restores;
mod scripts;
mod transactions;
mod wire;
mod writes;
