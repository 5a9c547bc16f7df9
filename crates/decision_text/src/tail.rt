ghost use Rattle.std.specs.Prelude.{◌≡◌, ◌++◌, ◌<◌, ◌≤◌, ◌^◌, OnOk, length};
ghost use Rattle.decision_text.specs.TailText.{AreWords, slot_line, slot_text, slots_text, tail_text, word_text, words_text, image_text};

use crate::coding::push_coded;
use crate::hexadecimal::push_hex_word;
use crate::numbers::push_with;
use slab_model::{Stat, class_size};
use std::alloc::{AllocError, Global};
use zone_object::ZoneView;

/// The number of classes of blocks.
const CLASSES: u32 = 9;

/// Adds `slot SIZE total T used U reqs Q fails F`.
fn push_slot(text: &mut Vec<u8>, class: u32, stat: &Stat) -> Result<(), AllocError>
    requires { class < 9 }
    ensures { OnOk result (text.new.items ≡ text.old.items ++ slot_line class stat.now) }
{
    push_with(text, b"slot ", class_size(class))?;
    push_with(text, b" total ", stat.total)?;
    push_with(text, b" used ", stat.used)?;
    push_with(text, b" reqs ", stat.reqs)?;
    push_with(text, b" fails ", stat.fails)?;
    text.extend_from_slice(b"\n")
}

/// Adds the line of a class that was asked for a block, and nothing of one that never was.
fn push_asked(text: &mut Vec<u8>, class: u32, stat: &Stat) -> Result<(), AllocError>
    requires { class < 9 }
    ensures { OnOk result (text.new.items ≡ text.old.items ++ slot_text class stat.now) }
{
    if stat.reqs == 0 {
        return Ok(());
    }
    push_slot(text, class, stat)
}

/// Adds the lines of all classes of blocks that were asked for one.
fn push_slots<V: ZoneView>(text: &mut Vec<u8>, zone: &V) -> Result<(), AllocError>
    requires { (s : V.State) × V.lays zone.now s × (length (V.stats_in s) ≤ 9) }
    ensures { (s : V.State) → V.lays zone.now s → length (V.stats_in s) ≤ 9 →
        OnOk result (text.new.items ≡ text.old.items ++ slots_text 0 (V.stats_in s)) }
{
    for class in 0..CLASSES {
        push_asked(text, class, &zone.stat_of(class))?;
    }
    Ok(())
}

/// Adds how full a zone is: `pages P free F entries E`, and a line for each class of blocks that was asked for one.
pub fn push_tail<V: ZoneView>(text: &mut Vec<u8>, zone: &V) -> Result<(), AllocError>
    requires { (s : V.State) × V.lays zone.now s × (length (V.stats_in s) ≤ 9) }
    ensures { (s : V.State) → V.lays zone.now s → length (V.stats_in s) ≤ 9 →
        OnOk result (text.new.items ≡ text.old.items ++ tail_text (V.pages_in s) (V.free_in s) (V.entries_in s) (V.stats_in s)) }
{
    push_with(text, b"pages ", zone.page_count())?;
    push_with(text, b" free ", zone.free_count())?;
    push_with(text, b" entries ", zone.entry_count())?;
    text.extend_from_slice(b"\n")?;
    push_slots(text, zone)
}

/// Adds `w INDEX VALUE` for a word that isn't 0, and nothing for one that is.
fn push_word(alloc: Global, text: &mut Vec<u8>, index: u64, value: u64) -> Result<(), AllocError>
    ensures { OnOk result (text.new.items ≡ text.old.items ++ word_text index value) }
{
    if value == 0 {
        return Ok(());
    }
    push_with(text, b"w ", index)?;
    text.extend_from_slice(b" ")?;
    push_hex_word(alloc, text, value)?;
    text.extend_from_slice(b"\n")
}

/// Adds `w INDEX VALUE` for each word of a zone that isn't 0.
fn push_words<V: ZoneView>(alloc: Global, text: &mut Vec<u8>, zone: &V) -> Result<(), AllocError>
    ensures text { OnOk result (text.new.items ≡ text.old.items ++ words_text 0 (V.image zone.now)) }
    ensures wide { OnOk result (AreWords (V.image zone.now)) }
    ensures short { OnOk result (length (V.image zone.now) < 2 ^ 64) }
{
    for index in 0..zone.words() {
        push_word(alloc, text, index, zone.word_at(index))?;
    }
    Ok(())
}

/// Adds the words of a zone: `zone NAME words N`, and `w INDEX VALUE` for each word that isn't 0. Each of them has 64 bits,
/// and there are fewer than 2^64.
pub fn push_image<V: ZoneView>(
    alloc: Global,
    text: &mut Vec<u8>,
    name: &[u8],
    zone: &V,
) -> Result<(), AllocError>
    ensures text { OnOk result (text.new.items ≡ text.old.items ++ image_text name.now (V.image zone.now)) }
    ensures wide { OnOk result (AreWords (V.image zone.now)) }
    ensures short { OnOk result (length (V.image zone.now) < 2 ^ 64) }
{
    text.extend_from_slice(b"zone ")?;
    push_coded(text, name)?;
    push_with(text, b" words ", zone.words())?;
    text.extend_from_slice(b"\n")?;
    push_words(alloc, text, zone)
}
