//! A folder of two parts, which is read back.

ghost use Rattle.std.specs.Prelude.{true};
ghost use Rattle.bac_parts.specs.Visits.{IsAsFound};

use bac_archive::is_archive;
use bac_files::{DiskFiles, FolderFiles, NotOpened, Parts, Reader};
use bac_parts::{FileFault, Visitor, close_file, open_archive, open_file, read_back};
use bac_print::write_text;
use sqlite::{Alter, Connection, Error, Unknown};
use std::fs::{create_dir_all, remove_dir_all};
use std::io::Write;
use std::test::Fail;

/// It notes the paths of parts, and writes that they are archives.
#[derive(Drop)]
struct Paths {
    text: String,
}

impl Reader for Paths {
    ghost reads = { λ old found before after new. IsAsFound found };

    fn read<A: Alter, O: Write>(&mut self, conn: &mut Connection<A>, output: &mut O) {
        if is_archive(conn.schema()) {
            let _written = write_text(output, b"archive\n");
        }
    }
}

impl Visitor for Paths {
    ghost wants = { λ paths. true };

    ghost ends = { λ old path came new. Unit {0} };

    fn wants_more(&self) -> bool {
        true
    }

    fn end(&mut self, path: &str, _came: Result<Result<(), Error>, NotOpened>) {
        let _named = self.text.push_str(path);
        let _ended = self.text.push('\n');
    }
}

/// Makes an archive in a file.
fn make(rt: &HostRuntime, path: &str) -> Result<(), FileFault> {
    let mut files = DiskFiles::new(rt, Unknown);
    match open_file(&mut files, path, true) {
        Ok(conn) => {
            let mut conn = conn;
            let made = open_archive(&mut conn, "2026-11-30T00:00:00Z");
            close_file(&mut files, conn, made)
        }
        Err(why) => Err(why),
    }
}

#[test]
fn reads_parts_from_the_newest_back(rt: HostRuntime) -> Result<(), Fail> {
    let alloc = rt.alloc();
    create_dir_all(&rt, "parts")?;
    assert!(rt; make(&rt, "parts/000001.db").is_ok());
    assert!(rt; make(&rt, "parts/000002.db").is_ok());
    let mut folder = FolderFiles::new(&rt);
    let Ok(Some(paths)) = folder.list("parts") else {
        return Err(Fail::from("no parts"));
    };
    let mut visitor = Paths {
        text: String::new(alloc),
    };
    let mut output = Vec::new(alloc);
    let left = read_back(&mut folder, &mut visitor, paths.as_slice(), &mut output);
    remove_dir_all(&rt, "parts")?;
    assert!(rt; left == 0);
    assert!(rt; visitor.text.as_str() == "parts/000002.db\nparts/000001.db\n");
    assert!(rt; output.as_slice() == "archive\narchive\n".as_bytes());
    Ok(())
}
