//! Instructions on tags.

ghost use Rattle.std.specs.Prelude.{◌≡◌, false, ◌<◌, ◌+◌, ◌-◌, ◌*◌, ◌%◌, ◌^◌, is_ok, [], ◌∷◌};
ghost use Rattle.std.specs.Prelude.{if◌then◌else◌};
ghost use Rattle.std.specs.Int.RustNames.{bit_or};
ghost use Rattle.a64_bits.specs.Addresses.{plain, address_tag};
ghost use Rattle.a64_instr.specs.Fields.{AreRegisters, IsTagPairTransfer, IsTagTransfer};
ghost use Rattle.mte_tags.specs.Memory.{with_granules};
ghost use Rattle.mte_tags.specs.Accesses.{result_of, tags_fault, with_bytes_at};
ghost use Rattle.a64_step.specs.LoadStorePair.{pair_bytes};
ghost use Rattle.a64_step.specs.MemoryTagging.{add_g_of, gmi_of, granule_count, irg_of, is_zeroing};
ghost use Rattle.a64_step.specs.MemoryTagging.{ldg_of, st_g_at, st_g_of, st_g_p_at, st_g_p_of};
ghost use Rattle.a64_step.specs.MemoryTagging.{sub_p_of, tag_target};
ghost use Rattle.a64_step.specs.MemoryTagging.{with_address_tag};
ghost use Rattle.a64_registers.specs.Registers.{with_next_pc};
ghost use Rattle.a64_step.specs.Results.{Leaves};

use crate::add_subtract::{add_into, add_or_subtract};
use crate::addressing::{Target, fault_of_stack, moved_by, write_back};
use crate::load_store_pair::{Pair, write_pair};
use crate::outcome::Outcome;
use a64_bits::sign_extend;
use a64_instr::fields::{AddSub, TagPairTransfer, TagTransfer};
use a64_registers::Regs;
use mte_tags::{MemFault, Tagged, choose_non_excluded, tag_of, with_tag};

/// GCR_EL1.Exclude: tag 0 is neither drawn nor chosen.
const EXCLUDED: u16 = 1;

/// ADDG, SUBG.
#[inline(never)]
#[tactic(auto, unfolding(crate::specs::MemoryTagging::add_g_of))]
pub fn add_g(regs: &mut Regs, op: u8, uimm6: u8, uimm4: u8, rn: u8, rd: u8)
    requires uimm6 { uimm6 < 64 }
    requires uimm4 { uimm4 < 16 }
    requires registers { AreRegisters (rn ∷ rd ∷ []) }
    ensures { regs.new ≡ with_next_pc (add_g_of regs.old op uimm6 uimm4 rn rd) }
{
    let base = regs.get_or_sp(rn);
    let sum = add_or_subtract(1, op, base, 16 * u64::from(uimm6));
    let tag = choose_non_excluded(tag_of(base), uimm4, EXCLUDED);
    regs.set_or_sp(rd, with_tag(sum.result, tag));
    regs.advance();
}

/// SUBP, SUBPS.
#[inline(never)]
#[tactic(auto, unfolding(crate::specs::MemoryTagging::sub_p_of))]
pub fn sub_p(regs: &mut Regs, s: u8, rm: u8, rn: u8, rd: u8)
    requires registers { AreRegisters (rm ∷ rn ∷ rd ∷ []) }
    ensures { regs.new ≡ with_next_pc (sub_p_of regs.old s rm rn rd) }
{
    let x = sign_extend(regs.get_or_sp(rn), 56);
    let y = sign_extend(regs.get_or_sp(rm), 56);
    add_into(regs, 1, AddSub { op: 1, s, rn, rd }, x, y);
    regs.advance();
}

/// IRG.
#[inline(never)]
#[tactic(auto, unfolding(crate::specs::MemoryTagging::irg_of))]
pub fn irg(regs: &mut Regs, rm: u8, rn: u8, rd: u8)
    requires registers { AreRegisters (rm ∷ rn ∷ rd ∷ []) }
    ensures { regs.new ≡ with_next_pc (irg_of regs.old rm rn rd) }
{
    let base = regs.get_or_sp(rn);
    let exclude = (regs.get(rm) % (1 << 16)) as u16 | EXCLUDED;
    regs.rgsr.tag %= 16;
    let tag = regs.rgsr.draw(exclude);
    regs.set_or_sp(rd, with_tag(base, tag));
    regs.advance();
}

/// GMI.
#[inline(never)]
#[tactic(auto, unfolding(crate::specs::MemoryTagging::gmi_of))]
pub fn gmi(regs: &mut Regs, rm: u8, rn: u8, rd: u8)
    requires registers { AreRegisters (rm ∷ rn ∷ rd ∷ []) }
    ensures { regs.new ≡ with_next_pc (gmi_of regs.old rm rn rd) }
{
    let bit = 1u64 << tag_of(regs.get_or_sp(rn));
    regs.set(rd, regs.get(rm) | bit);
    regs.advance();
}

/// LDG.
#[inline(never)]
#[tactic(auto, unfolding(crate::specs::MemoryTagging::ldg_of))]
pub fn ldg<M: Tagged>(
    regs: &mut Regs,
    memory: &mut M,
    imm9: i16,
    rn: u8,
    rt: u8,
    outcome: &mut Outcome,
)
    requires registers { AreRegisters (rn ∷ rt ∷ []) }
    requires outcome { outcome.old ≡ Outcome.Next }
    ensures leaves { Leaves (ldg_of regs.old (M.memory memory.old) imm9 rn rt)
        outcome.new regs.new (M.memory memory.new) }
    ensures kept { M.kept memory.old memory.new }
{
    if let Some(fault) = fault_of_stack(regs, rn, false) {
        *outcome = Outcome::Fault(fault);
        return;
    }
    let address = moved_by(regs.get_or_sp(rn), 16, i64::from(imm9));
    match memory.load_tag(address) {
        Err(fault) => *outcome = Outcome::Fault(fault),
        Ok(tag) => {
            regs.set(rt, with_tag(regs.get(rt), tag));
            regs.advance();
        }
    }
}

/// STG, STZG, ST2G, STZ2G.
#[inline(never)]
#[tactic(auto, unfolding(crate::specs::MemoryTagging::st_g_of))]
pub fn st_g<M: Tagged>(
    regs: &mut Regs,
    memory: &mut M,
    transfer: TagTransfer,
    imm9: i16,
    outcome: &mut Outcome,
)
    requires transfer { IsTagTransfer transfer }
    requires outcome { outcome.old ≡ Outcome.Next }
    ensures leaves { Leaves (st_g_of regs.old (M.memory memory.old)
        transfer.opc imm9 transfer.mode transfer.rn transfer.rt)
        outcome.new regs.new (M.memory memory.new) }
    ensures kept { M.kept memory.old memory.new }
{
    let target = target_of_tags(regs, i64::from(imm9), transfer.mode, transfer.rn);
    store_at(regs, memory, transfer, target, outcome)
}

/// The target of a store of tags.
#[tactic(auto, unfolding(crate::specs::MemoryTagging::tag_target))]
fn target_of_tags(regs: &Regs, offset: i64, mode: u8, rn: u8) -> Target
    requires { AreRegisters (rn ∷ []) }
    ensures { result ≡ tag_target regs.now offset mode rn }
{
    match mode {
        1 => Target::post(regs, 16, offset, rn),
        2 => Target::offset(regs, 16, offset, rn),
        _ => Target::pre(regs, 16, offset, rn),
    }
}

/// Stores the tags of one granule or two, and makes their bytes zero where the instruction says so.
#[tactic(auto, unfolding(crate::specs::MemoryTagging::st_g_at))]
fn store_at<M: Tagged>(
    regs: &mut Regs,
    memory: &mut M,
    transfer: TagTransfer,
    target: Target,
    outcome: &mut Outcome,
)
    requires transfer { IsTagTransfer transfer }
    requires outcome { outcome.old ≡ Outcome.Next }
    ensures leaves { Leaves (st_g_at regs.old (M.memory memory.old)
        transfer.opc transfer.rn transfer.rt target)
        outcome.new regs.new (M.memory memory.new) }
    ensures kept { M.kept memory.old memory.new }
{
    if let Some(fault) = fault_of_stack(regs, transfer.rn, true) {
        *outcome = Outcome::Fault(fault);
        return;
    }
    let granules = if transfer.opc == 2 || transfer.opc == 3 {
        2
    } else {
        1
    };
    let zero = transfer.opc == 1 || transfer.opc == 3;
    let tag = tag_of(regs.get_or_sp(transfer.rt));
    if let Err(fault) = memory.store_tags(target.address, granules, tag, zero) {
        *outcome = Outcome::Fault(fault);
        return;
    }
    write_back(regs, transfer.rn, target.new_base);
    regs.advance();
}

/// STGP.
#[inline(never)]
#[tactic(auto, unfolding(crate::specs::MemoryTagging::st_g_p_of))]
pub fn st_g_p<M: Tagged>(
    regs: &mut Regs,
    memory: &mut M,
    transfer: TagPairTransfer,
    imm7: i8,
    outcome: &mut Outcome,
)
    requires transfer { IsTagPairTransfer transfer }
    requires outcome { outcome.old ≡ Outcome.Next }
    ensures leaves { Leaves (st_g_p_of regs.old (M.memory memory.old)
        transfer.mode imm7 transfer.rt2 transfer.rn transfer.rt)
        outcome.new regs.new (M.memory memory.new) }
    ensures kept { M.kept memory.old memory.new }
{
    let target = target_of_tags(regs, i64::from(imm7), transfer.mode, transfer.rn);
    store_pair_at(regs, memory, transfer, target, outcome)
}

/// Stores the tag of one granule and two registers into it.
#[tactic(auto, unfolding(crate::specs::MemoryTagging::st_g_p_at))]
fn store_pair_at<M: Tagged>(
    regs: &mut Regs,
    memory: &mut M,
    transfer: TagPairTransfer,
    target: Target,
    outcome: &mut Outcome,
)
    requires transfer { IsTagPairTransfer transfer }
    requires outcome { outcome.old ≡ Outcome.Next }
    ensures leaves { Leaves (st_g_p_at regs.old (M.memory memory.old)
        transfer.rt2 transfer.rn transfer.rt target)
        outcome.new regs.new (M.memory memory.new) }
    ensures kept { M.kept memory.old memory.new }
{
    if let Some(fault) = fault_of_stack(regs, transfer.rn, true) {
        *outcome = Outcome::Fault(fault);
        return;
    }
    let values = Pair {
        first: regs.get(transfer.rt),
        second: regs.get(transfer.rt2),
    };
    if let Err(fault) = store_granule(memory, target.address, values) {
        *outcome = Outcome::Fault(fault);
        return;
    }
    write_back(regs, transfer.rn, target.new_base);
    regs.advance();
}

/// Stores the address's tag and two numbers as one granule, all or nothing.
fn store_granule<M: Tagged>(memory: &mut M, address: u64, values: Pair) -> Result<(), MemFault>
    ensures answer { result ≡ result_of (tags_fault (M.memory memory.old) address 1) }
    ensures memory { M.memory memory.new
        ≡ (if is_ok result
        then with_bytes_at
        (with_granules (M.memory memory.old) (plain address) 1 (address_tag address) false)
        address
        (pair_bytes 2 values.first values.second)
        else M.memory memory.old) }
    ensures kept { M.kept memory.old memory.new }
{
    if let Err(fault) = memory.store_tags(address, 1, tag_of(address), false) {
        return Err(fault);
    }
    // A granule whose tag may be stored may be written.
    let _ = write_pair(memory, address, 2, values, false);
    Ok(())
}
