// What items are.
ghost use Rattle.std.specs.Prelude.{◌≡◌, ◌≤◌, ◌^◌, option_map};
ghost use Rattle.dv_asm.specs.Items.{is_label, is_payload, is_switch_opcode, label_of_switch, size_of};

use dv_defs::Text;
use dv_draft::{Item, What};
use dv_units::insn_size;

pub fn is_label(item: &Item) -> bool
    ensures { result ≡ is_label item.now.what }
{
    matches!(item.what, What::Label(_))
}

pub fn is_payload(item: &Item) -> bool
    ensures { result ≡ is_payload item.now.what }
{
    matches!(
        item.what,
        What::Packed(_, _) | What::Sparse(_, _) | What::Data(_, _)
    )
}

/// The label that the item names where it is a switch.
pub fn label_of_switch(item: &Item) -> Option<&Text>
    ensures { option_map (λ t. t.now) result ≡ label_of_switch item.now.what }
{
    match &item.what {
        What::Op(op) if is_switch_opcode(op.insn.op) => op.label.as_ref(),
        _ => None,
    }
}

/// The number of units, aligning nops not counted.
pub fn size(item: &Item) -> u64
    ensures value { result ≡ size_of item.now.what }
    ensures small { result ≤ 2 ^ 63 }
{
    match &item.what {
        What::Label(_) => 0,
        What::Op(op) => insn_size(op.insn.op) as u64,
        What::Packed(_, targets) => targets.items().len() as u64 * 2 + 4,
        What::Sparse(_, targets) => targets.items().len() as u64 * 4 + 2,
        What::Data(_, bytes) => (bytes.items().len() as u64 + 1) / 2 + 4,
    }
}

fn is_switch_opcode(op: u8) -> bool
    ensures { result ≡ is_switch_opcode op }
{
    matches!(op, 0x2b | 0x2c)
}
