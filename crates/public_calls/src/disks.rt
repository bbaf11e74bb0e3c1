//! On which files a journal is opened, in memory and of the system.

ghost use Rattle.std.specs.Prelude.{◌≡◌};

use journal_disk::{Disks, MemDisks, StdDisks};
use outside::Failures;
use std::alloc::Global;
use std::fs;
use std::test::Fail;

// How many bytes a file has, all 0 but for one at a place, and whether a journal is opened on it.
const FILES: &[(usize, usize, u8, bool)] = &[
    (0, 0, 0, true),
    (1, 0, 0, true),
    (65, 2, 7, true),
    (65, 64, 1, true),
    (193, 0, 1, true),
    (66, 2, 7, false),
    (193, 64, 1, false),
    (1, 0, 2, false),
    (20, 0, 116, false),
];

fn file_of(alloc: Global, count: usize, place: usize, byte: u8) -> Result<Vec<u8>, Fail> {
    let mut file = Vec::new(alloc);
    for at in 0..count {
        file.push(if at == place { byte } else { 0 })?;
    }
    Ok(file)
}

fn is_opened<J: Disks>(alloc: Global, disks: &mut J) -> bool
    requires { J.running disks.old ≡ 0 }
{
    match disks.open(alloc, "a_journal") {
        Ok(disk) => {
            disks.shut(disk);
            true
        }
        Err(_) => false,
    }
}

#[test]
fn journals_are_opened_on_no_other_file(rt: HostRuntime) -> Result<(), Fail> {
    let alloc = rt.alloc();
    for (count, place, byte, opened) in FILES {
        let file = file_of(alloc, *count, *place, *byte)?;
        fs::write(&rt, "a_journal", &file)?;
        assert!(rt; is_opened(alloc, &mut StdDisks::new(rt.clone()?)) == *opened);
        assert!(rt; fs::read(&rt, "a_journal")?.as_slice() == file.as_slice());
        let mut disks = MemDisks::new(alloc, file, Vec::new(alloc), Failures::none(alloc));
        assert!(rt; is_opened(alloc, &mut disks) == *opened);
    }
    fs::remove_file(&rt, "a_journal")?;
    Ok(())
}
