//! Laws of lines.

ghost use Rattle.mt_explain.specs.Lines.{HeadsAreConfigurations, ScriptsFollowHeads};

/// The lines of a script, which `replay` counts, are those of the file after the configuration and its separator.
pub fn scripts_follow_heads()
    ensures { ScriptsFollowHeads }
{}

/// What is read as the configuration of a job is what stands in the file before the separator.
pub fn heads_are_configurations()
    ensures { HeadsAreConfigurations }
{}
