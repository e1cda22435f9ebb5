//! What `plan` finds.

use command_base::Text;
use plan_rules::Plan;

/// What is found where a plan is looked for.
#[derive(Drop)]
pub enum Planned {
    /// A plan.
    Plan(Plan),
    /// There is none, and what is shown of that.
    Missing(Text),
}
