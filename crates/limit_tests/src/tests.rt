//! `limits` has runs on inputs as large as a limit, and one part larger. The other modules have the files of trials: of small sizes,
//! written by hand, and large ones.
mod block_files;
mod chain_files;
mod comparing;
mod large_files;
mod limits;
