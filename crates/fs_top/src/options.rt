//! The options of a run.

use fs_types::Options;

/// The options of every run.
pub(crate) const OPTIONS: Options = Options {
    strict: true,
    mapposix: true,
    mfsymlinks: false,
    nobrl: false,
    ro: false,
    file_mode: 0o755,
    dir_mode: 0o755,
    rsize: 65_536,
    wsize: 65_536,
    closetimeo: 1,
    retries: 3,
    patience: 300,
};
