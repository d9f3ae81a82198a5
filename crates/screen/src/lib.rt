// The entries for the drawing screen, a C program (include/screen.h). Each is a function of what it is lent: bytes in, bytes into an area, one number back.
#![tactic(auto)]

ghost use Rattle.std.specs.Prelude.{◌≡◌};
ghost use Rattle.protocol.specs.Calls.{start};
ghost use Rattle.format.specs.Sheets.{screen};
ghost use Rattle.sheet.specs.Runs.{handed_back};
ghost use Rattle.sheet.specs.Entries.{load_entry, save_entry, save_on_entry};

#[unsafe(no_mangle)]
pub extern "C" fn screen_run(sheet: &[u8], area: &mut [u8]) -> u64
    ensures { handed_back result area.new ≡ screen start sheet.now area.old }
{
    sheet::run(sheet, area)
}

// ---- saved plans (02, S-1)

#[unsafe(no_mangle)]
pub extern "C" fn screen_load(file: &[u8], sheet: &[u8], area: &mut [u8]) -> u64
    ensures { handed_back result area.new ≡ load_entry file.now sheet.now area.old }
{
    sheet::run_on(file, sheet, area)
}

#[unsafe(no_mangle)]
pub extern "C" fn screen_save(sheet: &[u8], area: &mut [u8]) -> u64
    ensures { handed_back result area.new ≡ save_entry sheet.now area.old }
{
    sheet::save(sheet, area)
}

#[unsafe(no_mangle)]
pub extern "C" fn screen_save_on(file: &[u8], sheet: &[u8], area: &mut [u8]) -> u64
    ensures { handed_back result area.new ≡ save_on_entry file.now sheet.now area.old }
{
    sheet::save_on(file, sheet, area)
}
