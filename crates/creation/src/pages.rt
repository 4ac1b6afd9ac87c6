//! The pages of the first savepoint: the catalogue, the open list, and the converter that knows
//! them.
ghost use Rattle.std.specs.Prelude.{◌≡◌, ℕ, ◌+◌, ◌≤◌, ◌<◌, sum, OnOk};
ghost use Rattle.mdb_model.specs.Causes.{HasCause};
ghost use Rattle.mdb_host.specs.Disk.{Disk, Goes};
ghost use Rattle.mdb_bytes.specs.Firsts.{first_block, first_root_block, first_leaf, first_root, first_catalogue, first_open_list, leaf_count};
ghost use Rattle.creation.specs.Making.{Each, HasFirstPages};
ghost use Rattle.volume_disk.specs.Blocks.{block_at, IsArea, Writes};

use arrayvec::ArrayVec;
use mdb_bytes::{
    Catalogue, CatalogueEntry, ConverterEntry, ConverterLeaf, ConverterRoot, OpenList,
    encode_catalogue, encode_converter_leaf, encode_converter_root, encode_open_list,
};
use mdb_host::{Failed, Host};
use volume_disk::Volumes;

// The entries of a converter leaf.
const LEAF_ENTRIES: usize = 600;

// No page.
const NO_ENTRY: ConverterEntry = ConverterEntry { block: 0, stamp: 0 };

// The leaves of the converter of so many blocks.
fn leaves(blocks: u32) -> u32
    requires { blocks ≤ 65536 }
    ensures { result ≡ leaf_count blocks }
{
    (blocks + 599) / 600
}

/// The block of the first converter root, behind those of its leaves.
pub(crate) fn root_block(blocks: u32) -> u32
    requires { blocks ≤ 65536 }
    ensures { result ≡ first_root_block blocks }
{
    4 + leaves(blocks)
}

// No table has a row.
fn empty_catalogue() -> Catalogue
    ensures { result ≡ first_catalogue }
{
    Catalogue {
        entries: [CatalogueEntry {
            root: 0,
            pages: 0,
            cost: 0,
        }; 500],
    }
}

// A leaf: the first one knows the catalogue and the open list, and no other page is there.
fn leaf(number: u32) -> ConverterLeaf
    ensures { result ≡ first_leaf number }
{
    let mut entries = [NO_ENTRY; LEAF_ENTRIES];
    if number == 0 {
        entries[0] = ConverterEntry { block: 2, stamp: 1 };
        entries[1] = ConverterEntry { block: 3, stamp: 1 };
    }
    ConverterLeaf {
        leaf: number,
        savepoint: 1,
        entries,
    }
}

// The root with the blocks of all leaves.
fn root(blocks: u32) -> ConverterRoot
    requires { blocks ≤ 65536 }
    ensures { result ≡ first_root blocks }
{
    let mut leaf_blocks = ArrayVec::new();
    for i in 0..leaves(blocks) {
        leaf_blocks.push(4 + i);
    }
    ConverterRoot {
        savepoint: 1,
        leaves: leaf_blocks,
    }
}

// The page of a block, in the order in which they stand.
fn first_page(blocks: u32, block: u32, into: &mut [u8; 8192])
    requires area { (512 ≤ blocks) × (blocks ≤ 65536) }
    requires inside { (2 ≤ block) × (block ≤ first_root_block blocks) }
    ensures { into.new ≡ first_block blocks block }
{
    if block == 2 {
        encode_catalogue(&empty_catalogue(), into);
    } else if block == 3 {
        let sessions = OpenList {
            entries: ArrayVec::new(),
        };
        encode_open_list(&sessions, into);
    } else if block < root_block(blocks) {
        encode_converter_leaf(&leaf(block - 4), into);
    } else {
        encode_converter_root(&root(blocks), into);
    }
}

// Writes the pages to their blocks.
fn write_blocks<H: Host>(host: &mut H, volumes: &Volumes) -> Result<(), Failed>
    requires area { (512 ≤ sum volumes.now) × (sum volumes.now ≤ 65536) }
    requires there { H.tells → IsArea volumes.now (H.disk host.old).seen }
    ensures goes { H.tells → Goes (H.disk host.old) (H.disk host.new)
        (Writes volumes.now (λ block. 2 ≤ block)) }
    ensures seen { H.tells → Writes volumes.now (λ block. 2
        ≤ block) (H.disk host.old).seen (H.disk host.new).seen }
    ensures pages { OnOk result (H.tells → HasFirstPages volumes.now (H.disk host.new).seen) }
    ensures cause { HasCause (H.faults host.old) (H.faults host.new) result }
    ensures say_faults { H.say_faults host.new ≡ H.say_faults host.old }
{
    let blocks = volumes.blocks();
    let mut page = [0u8; 8192];
    for block in 2..root_block(blocks) + 1 {
        first_page(blocks, block, &mut page);
        volumes.write_block(host, block, &page)?;
    }
    Ok(())
}

/// Writes the pages of the first savepoint, and makes the devices keep them.
pub(crate) fn write_pages<H: Host>(host: &mut H, volumes: &Volumes) -> Result<(), Failed>
    requires area { (512 ≤ sum volumes.now) × (sum volumes.now ≤ 65536) }
    requires there { H.tells → IsArea volumes.now (H.disk host.old).seen }
    ensures goes { H.tells → Goes (H.disk host.old) (H.disk host.new)
        (Writes volumes.now (λ block. 2 ≤ block)) }
    ensures pages { OnOk result (H.tells → Each (H.disk host.new) (HasFirstPages volumes.now)) }
    ensures cause { HasCause (H.faults host.old) (H.faults host.new) result }
    ensures say_faults { H.say_faults host.new ≡ H.say_faults host.old }
{
    write_blocks(host, volumes)?;
    volumes.sync_all(host)
}
