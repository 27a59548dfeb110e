ghost use Rattle.std.specs.Prelude.{◌≡◌, List, [], ◌∷◌, MatchOption, OnOk, OnErr, drop};
ghost use Rattle.scan_model.specs.State.{Group};
ghost use Rattle.scan_model.specs.Conditionals.{is_skipped};
ghost use Rattle.plain_lines.specs.States.{group_of, groups_of};
ghost use Rattle.plain_lines.specs.Conditions.{chosen};

use crate::state::OpenGroup;
use scan_model::NoMemory;

/// The innermost open conditional, where there is one.
pub fn innermost(groups: &[OpenGroup]) -> Option<OpenGroup>
    ensures { MatchOption result (groups_of groups.now ≡ []) (λ g. groups_of groups.now ≡ group_of g ∷ drop 1 (groups_of groups.now)) }
{
    if groups.is_empty() {
        None
    } else {
        Some(groups[groups.len() - 1])
    }
}

/// Whether the lines that stand here now are skipped.
pub fn is_skipped(groups: &[OpenGroup]) -> bool
    ensures { result ≡ is_skipped (groups_of groups.now) }
{
    match innermost(groups) {
        Some(group) => !group.live,
        None => false,
    }
}

/// Opens one more conditional. Want of memory changes nothing.
pub fn open_group(groups: &mut Vec<OpenGroup>, group: OpenGroup) -> Result<(), NoMemory>
    ensures ok { OnOk result (groups_of groups.new.items ≡ group_of group ∷ groups_of groups.old.items) }
    ensures err { OnErr result (groups.new.items ≡ groups.old.items) }
{
    match groups.push(group) {
        Ok(()) => Ok(()),
        Err(_) => Err(NoMemory),
    }
}

/// Puts this in the place of the innermost conditional, where there is one.
pub fn set_innermost(groups: &mut Vec<OpenGroup>, group: OpenGroup)
    ensures { (g : Group) (gs : List Group) → groups_of groups.old.items ≡ g ∷ gs → groups_of groups.new.items ≡ group_of group ∷ gs }
{
    let len = groups.len();
    if len > 0 {
        groups[len - 1] = group;
    }
}

/// Closes the innermost conditional, where there is one.
pub fn close_innermost(groups: &mut Vec<OpenGroup>)
    ensures { groups_of groups.new.items ≡ drop 1 (groups_of groups.old.items) }
{
    let _ = groups.pop();
}

/// A condition has this value: that of an `#if` on this line, or that of an `#elif` of the innermost conditional. Want of
/// memory changes nothing.
pub fn choose(
    groups: &mut Vec<OpenGroup>,
    line: u32,
    is_elif: bool,
    yields: bool,
) -> Result<(), NoMemory>
    ensures ok { OnOk result (groups_of groups.new.items ≡ chosen line is_elif yields (groups_of groups.old.items)) }
    ensures err { OnErr result (groups.new.items ≡ groups.old.items) }
{
    if is_elif && let Some(group) = innermost(groups) {
        set_innermost(
            groups,
            OpenGroup {
                live: yields,
                taken: yields,
                ..group
            },
        );
        return Ok(());
    }
    open_group(
        groups,
        OpenGroup {
            line,
            live: yields,
            taken: yields,
            past_else: false,
        },
    )
}
