// The way by which a log comes to its final path.
ghost use Rattle.std.specs.Prelude.{◌≡◌};
ghost use Rattle.lr_plan.specs.Steps.{leaves_path};

use crate::plan::LogPlan;

impl LogPlan {
    /// Whether the log's path is free behind its own way: the log was renamed, to its final path or aside.
    pub fn leaves_path(&self) -> bool
        ensures { result ≡ leaves_path self.now.job self.now.aside }
    {
        self.job.is_none() || self.aside.is_some()
    }
}
