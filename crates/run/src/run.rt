//! What a run holds.
ghost use Rattle.std.specs.Prelude.{◌≡◌, ℕ, false};
ghost use Rattle.image.specs.Shown.{shown, holds};
ghost use Rattle.run.specs.Valid.{Valid};
ghost use Rattle.run.specs.Props.{valid_prop};

use crate::space::Space;
use filesystem::FileSystem;
use image::{ImageStore, Overlay};
use progress::Progress;
use std::alloc::Global;

/// A run over the states of a recording: the base with two overlays, of which the lower shows the
/// standing state and the upper takes what recovery writes; the file system; what is explored; and
/// how far the run is. Between calls the upper overlay holds nothing.
pub struct Run<S: ImageStore, F: FileSystem> {
    pub(crate) layers: Overlay<Overlay<S>>,
    pub(crate) fs: F,
    pub(crate) heap: Global,
    pub(crate) space: Space,
    pub(crate) progress: Progress,
    pub ghost valid: { Valid (F.FileSystem.outcome fs) (S.ImageStore.sectors layers.below.below) (shown S.ImageStore.sectors layers.below) space progress } by { valid_prop _ _ _ _ _ },
    pub ghost clean: { (k : ℕ) → holds layers k ≡ false },
}
