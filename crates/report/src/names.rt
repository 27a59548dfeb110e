ghost use Rattle.std.specs.Prelude.{◌≡◌};
ghost use Rattle.report.specs.FaultLines.{fault_name as fault_text, command_fault_name as command_fault_text};

use scan_model::{CommandFault, FaultKind};

/// What a line calls a fault of a unit.
#[tactic(auto, unfolding(crate::specs::FaultLines::fault_name))]
pub(crate) fn fault_name(kind: FaultKind) -> &'static str
    ensures { result.now ≡ fault_text kind }
{
    match kind {
        FaultKind::MainMissing => "MainMissing",
        FaultKind::ReadFault => "ReadFault",
        FaultKind::FileTooLarge => "FileTooLarge",
        FaultKind::IncludeNotFound => "IncludeNotFound",
        FaultKind::IncludeSyntax => "IncludeSyntax",
        FaultKind::BadDefine => "BadDefine",
        FaultKind::BadCondition => "BadCondition",
        FaultKind::DivisionByZero => "DivisionByZero",
        FaultKind::BadShift => "BadShift",
        FaultKind::BadNumber => "BadNumber",
        FaultKind::ConditionTooDeep => "ConditionTooDeep",
        FaultKind::Unbalanced => "Unbalanced",
        FaultKind::ErrorDirective => "ErrorDirective",
        FaultKind::UnknownDirective => "UnknownDirective",
        FaultKind::BadLine => "BadLine",
        FaultKind::ExpansionFault => "ExpansionFault",
        FaultKind::ExpansionTooLong => "ExpansionTooLong",
        FaultKind::TooDeep => "TooDeep",
        FaultKind::TooManyEntered => "TooManyEntered",
        FaultKind::BadModuleLine => "BadModuleLine",
        FaultKind::SecondModule => "SecondModule",
        FaultKind::PartitionOutsideModule => "PartitionOutsideModule",
        FaultKind::KeywordIsMacro => "KeywordIsMacro",
        FaultKind::HeaderUnit => "HeaderUnit",
        FaultKind::CounterUsed => "CounterUsed",
    }
}

/// What a line calls a fault of a command that isn't scanned.
pub(crate) fn command_fault_name(fault: CommandFault) -> &'static str
    ensures { result.now ≡ command_fault_text fault }
{
    match fault {
        CommandFault::UnsupportedOption => "UnsupportedOption",
        CommandFault::BadCommand => "BadCommand",
    }
}
