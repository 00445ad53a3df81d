//! What the runtime is told of sites.

ghost use Rattle.std.specs.Prelude.{◌≡◌, ◌++◌, OnOk};
ghost use Rattle.std.specs.List.{flat_map};
ghost use Rattle.os_code.specs.Codes.{parts_of};
ghost use Rattle.oscc_text.specs.Sites.{body_head, body_text, captured_text, item_text, items_head, items_text, site_counts, site_line};
ghost use Rattle.oscc_text.specs.Sites.{site_line_at, site_lines, site_lists};
ghost use Rattle.oscc_text.specs.Sites.{site_text, site_text_at, sites_text, slot_text, table_text, window_number, write_text};

use crate::lists::add_scalars;
use crate::pieces::{add_one, add_three, add_two};
use os_code::{Code, Site, SiteItem};
use os_io::Memory;
use osview_text::Text;

/// The front of an item.
fn write_text(write: bool) -> &'static [u8]
    ensures { result.now ≡ write_text write }
{
    if write { b"{1, " } else { b"{0, " }
}

/// The number of a window: 0, or the slot plus 1.
fn window_number(window: Option<u32>) -> u64
    ensures { result ≡ window_number window }
{
    match window {
        None => 0,
        Some(slot) => u64::from(slot) + 1,
    }
}

/// Adds an item.
fn add_item(told: &mut Text, item: SiteItem) -> Result<(), Memory>
    ensures { OnOk result (told.new ≡ told.old ++ item_text item) }
{
    add_two(
        told,
        write_text(item.write),
        u64::from(item.stream),
        b", ",
        window_number(item.window),
        b"}, ",
    )
}

/// Adds the members of a list of items.
fn add_all_items(told: &mut Text, items: &[SiteItem]) -> Result<(), Memory>
    ensures { OnOk result (told.new ≡ told.old ++ flat_map item_text items.now) }
{
    for item in items {
        add_item(told, *item)?;
    }
    Ok(())
}

/// Adds a captured slot.
fn add_slot(told: &mut Text, slot: u32) -> Result<(), Memory>
    ensures { OnOk result (told.new ≡ told.old ++ slot_text slot) }
{
    add_one(told, b"", u64::from(slot), b", ")
}

/// Adds the members of a list of captured slots.
fn add_all_slots(told: &mut Text, slots: &[u32]) -> Result<(), Memory>
    ensures { OnOk result (told.new ≡ told.old ++ flat_map slot_text slots.now) }
{
    for slot in slots {
        add_slot(told, *slot)?;
    }
    Ok(())
}

/// Adds the front of the function that calls the body of a site.
fn add_body_head(told: &mut Text, number: usize, site: &Site) -> Result<(), Memory>
    ensures { OnOk result (told.new ≡ told.old ++ body_head number site.now) }
{
    add_two(
        told,
        b"static void site_",
        number as u64,
        b"(const int32_t *c)\n{\n    (void)c;\n    unit_",
        u64::from(site.unit),
        b"(",
    )
}

/// Adds the function that calls the body of a site.
fn add_body(told: &mut Text, number: usize, site: &Site) -> Result<(), Memory>
    ensures { OnOk result (told.new ≡ told.old ++ body_text number site.now) }
{
    add_body_head(told, number, site)?;
    add_scalars(told, site.captured.len())?;
    told.add(b");\n}\n\n")
}

/// Adds the front of the list of the items of a site.
fn add_items_head(told: &mut Text, number: usize) -> Result<(), Memory>
    ensures { OnOk result (told.new ≡ told.old ++ items_head number) }
{
    add_one(
        told,
        b"static const struct os_item items_",
        number as u64,
        b"[] = {",
    )
}

/// Adds the list of the items of a site.
fn add_items(told: &mut Text, number: usize, site: &Site) -> Result<(), Memory>
    ensures { OnOk result (told.new ≡ told.old ++ items_text number site.now) }
{
    add_items_head(told, number)?;
    add_all_items(told, site.items.as_slice())?;
    told.add(b"{0, 0, 0}};\n")
}

/// Adds the list of the captured slots of a site.
fn add_captured(told: &mut Text, number: usize, site: &Site) -> Result<(), Memory>
    ensures { OnOk result (told.new ≡ told.old ++ captured_text number site.now) }
{
    add_one(
        told,
        b"static const uint32_t captured_",
        number as u64,
        b"[] = {",
    )?;
    add_all_slots(told, site.captured.as_slice())?;
    told.add(b"0};\n\n")
}

/// Adds what stands for a site before the table.
fn add_site(told: &mut Text, number: usize, site: &Site) -> Result<(), Memory>
    ensures { OnOk result (told.new ≡ told.old ++ site_text number site.now) }
{
    add_body(told, number, site)?;
    add_items(told, number, site)?;
    add_captured(told, number, site)
}

/// Adds what stands for the site with a number before the table.
fn add_site_at(told: &mut Text, code: &Code, number: usize) -> Result<(), Memory>
    ensures { OnOk result (told.new ≡ told.old ++ site_text_at (parts_of code.now) number) }
{
    match code.sites.as_slice().get(number) {
        Some(site) => add_site(told, number, site),
        None => Ok(()),
    }
}

/// Adds what stands for sites before the table.
pub(crate) fn add_sites(told: &mut Text, code: &Code) -> Result<(), Memory>
    ensures { OnOk result (told.new ≡ told.old ++ sites_text (parts_of code.now)) }
{
    for number in 0..code.sites.len() {
        add_site_at(told, code, number)?;
    }
    Ok(())
}

/// Adds the front of the line of a site: its body, its line and how many items it has.
fn add_counts(told: &mut Text, number: usize, site: &Site) -> Result<(), Memory>
    ensures { OnOk result (told.new ≡ told.old ++ site_counts number site.now) }
{
    add_three(
        told,
        b"    {site_",
        number as u64,
        b", ",
        u64::from(site.line),
        b", ",
        site.items.len() as u64,
        b", ",
    )
}

/// Adds the rest of the line of a site: how many slots it captures, and its lists.
fn add_lists(told: &mut Text, number: usize, site: &Site) -> Result<(), Memory>
    ensures { OnOk result (told.new ≡ told.old ++ site_lists number site.now) }
{
    add_three(
        told,
        b"",
        site.captured.len() as u64,
        b", items_",
        number as u64,
        b", captured_",
        number as u64,
        b"},\n",
    )
}

/// Adds the line of a site.
fn add_line(told: &mut Text, number: usize, site: &Site) -> Result<(), Memory>
    ensures { OnOk result (told.new ≡ told.old ++ site_line number site.now) }
{
    add_counts(told, number, site)?;
    add_lists(told, number, site)
}

/// Adds the line of the site with a number.
fn add_line_at(told: &mut Text, code: &Code, number: usize) -> Result<(), Memory>
    ensures { OnOk result (told.new ≡ told.old ++ site_line_at (parts_of code.now) number) }
{
    match code.sites.as_slice().get(number) {
        Some(site) => add_line(told, number, site),
        None => Ok(()),
    }
}

/// Adds the lines of all sites.
fn add_lines(told: &mut Text, code: &Code) -> Result<(), Memory>
    ensures { OnOk result (told.new ≡ told.old ++ site_lines (parts_of code.now)) }
{
    for number in 0..code.sites.len() {
        add_line_at(told, code, number)?;
    }
    Ok(())
}

/// Adds the table of sites.
pub(crate) fn add_table(told: &mut Text, code: &Code) -> Result<(), Memory>
    ensures { OnOk result (told.new ≡ told.old ++ table_text (parts_of code.now)) }
{
    told.add(b"const struct os_site os_sites[] = {\n")?;
    add_lines(told, code)?;
    told.add(b"    {0, 0, 0, 0, 0, 0}};\n")
}
