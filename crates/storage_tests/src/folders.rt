//! Tests of a disk over real files.
use session_disk::{DiskError, Family, FolderDisk, SessionDisk};
use std::fs;
use std::test::Fail;

#[test]
fn a_folder_disk_keeps_real_files(rt: HostRuntime) -> Result<(), Fail> {
    let folder = "a_folder_disk_keeps_real_files";
    let _ = fs::remove_dir_all(&rt, folder);
    fs::create_dir(&rt, folder)?;
    fs::write(&rt, "a_folder_disk_keeps_real_files/Tabs_8", "other")?;
    fs::write(&rt, "a_folder_disk_keeps_real_files/notes.txt", "other")?;
    fs::create_dir(&rt, "a_folder_disk_keeps_real_files/Session_9")?;
    let mut disk = FolderDisk::new(rt, folder, Family::Session)?;
    assert_eq!(rt; disk.newest_below(None), Ok(None));
    assert_eq!(rt; disk.create(5), Ok(()));
    assert_eq!(rt; disk.append(5, b"ab"), Ok(()));
    assert_eq!(rt; disk.append(5, b"c"), Ok(()));
    assert_eq!(rt; disk.sync(5), Ok(()));
    assert_eq!(rt; disk.settle(), Ok(()));
    assert_eq!(rt; disk.create(5), Err(DiskError::Failed));
    assert_eq!(rt; disk.failures(), 1);
    drop(disk);

    let mut disk = FolderDisk::new(rt, folder, Family::Session)?;
    assert_eq!(rt; disk.newest_below(None), Ok(Some(5)));
    assert_eq!(rt; disk.newest_below(Some(5)), Ok(None));
    assert_eq!(rt; disk.length(5), Ok(3));
    let mut piece = [0u8; 4];
    assert_eq!(rt; disk.read_at(5, 1, &mut piece), Ok(2));
    assert_eq!(rt; piece, *b"bc\0\0");
    assert_eq!(rt; disk.append(5, b"d"), Ok(()));
    assert_eq!(rt; disk.length(9), Err(DiskError::Failed));
    assert_eq!(rt; disk.remove(5), Ok(()));
    assert_eq!(rt; disk.settle(), Ok(()));
    assert_eq!(rt; disk.tell(1), Ok(()));
    assert_eq!(rt; disk.newest_below(None), Ok(None));
    assert_eq!(rt; disk.failures(), 1);
    fs::remove_dir_all(&rt, folder)?;
    assert_eq!(rt; disk.newest_below(None), Err(DiskError::Failed));
    Ok(())
}
