//! Settings of a region.

ghost use Rattle.std.specs.Prelude.{◌≡◌, ◌≤◌, ◌↔◌, IfSome, IsSome};
ghost use Rattle.pn_tablet.specs.Prelude.{IsLayout};
ghost use Rattle.pn_apply.specs.declared.reducing.TheConstants.{MAX_WORKERS};

use pn_apply::MAX_WORKERS;
use pn_tablet::Layout;
use std::marker::Model;

/// The settings of a region: its layout, and the workers of its rounds.
#[derive(Debug, Drop)]
pub struct Settings {
    pub(crate) layout: Layout,
    pub(crate) workers: usize,
}

impl Model for Settings {
    ghost use Rattle.std.specs.Prelude.{◌≤◌};
    ghost use Rattle.pn_tablet.specs.Prelude.{IsLayout};
    ghost use Rattle.pn_apply.specs.declared.reducing.TheConstants.{MAX_WORKERS};
    ghost use Rattle.pn_serve.specs.Runs.{SettingsValue};

    ghost Value = { SettingsValue };

    ghost view = { λ settings. record { layout = settings.layout; workers = settings.workers } };

    ghost invariant = { λ settings. IsLayout settings.layout × (1 ≤ settings.workers) × (settings.workers ≤ MAX_WORKERS) };
}

impl Settings {
    /// None unless there are 1 to 16 workers.
    pub fn new(layout: Layout, workers: usize) -> Option<Settings>
        ensures made { IfSome result (λ settings. settings ≡ record { layout = layout; workers = workers }) }
        ensures exactly { IsSome result ↔ ((1 ≤ workers) × (workers ≤ MAX_WORKERS)) }
    {
        if workers < 1 || workers > MAX_WORKERS {
            return None;
        }
        layout.recall_order();
        Some(Settings { layout, workers })
    }

    /// Takes the settings apart into the layout and the workers.
    pub fn into_parts(self) -> (Layout, usize)
        ensures layout { result.0 ≡ self.layout }
        ensures workers { result.1 ≡ self.workers }
        ensures within { (1 ≤ result.1) × (result.1 ≤ MAX_WORKERS) }
    {
        (self.layout, self.workers)
    }

    /// How the keys are divided into tablets.
    pub fn layout(&self) -> &Layout
        ensures layout { result.now ≡ self.now.layout }
        ensures lawful { IsLayout self.now.layout }
    {
        &self.layout
    }

    /// How many workers a round has.
    pub fn workers(&self) -> usize
        ensures workers { result ≡ self.now.workers }
        ensures within { (1 ≤ result) × (result ≤ MAX_WORKERS) }
    {
        self.workers
    }
}
