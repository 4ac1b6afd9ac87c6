//! What bytes mean: the commit group and the log.
#![tactic(auto)]

mod changes;
mod check_report;
mod converter_pages;
mod encode;
mod entry;
mod group;
mod group_buf;
mod held;
mod index_page;
mod laws;
mod log_info;
mod logical_pages;
mod medium_pages;
mod numbers;
mod order;
mod page_sections;
mod paged;
mod parts;
mod record;
mod restart_record;
mod row_leaf;
mod undo_page;

pub use changes::{ChangeReader, LoggedChange, LoggedPlace, changes_of};
pub use check_report::{decode_check_report, encode_check_report};
pub use converter_pages::{
    ConverterEntry, ConverterLeaf, ConverterRoot, decode_converter_leaf, decode_converter_root,
    encode_converter_leaf, encode_converter_root,
};
pub use encode::{begin_group, encode_group, put_change};
pub use entry::{ChangeEntry, group_entry};
pub use group::{GroupHead, check_group, group_head, group_len, is_due};
pub use group_buf::GroupBuf;
pub use held::{Held, LogRead, Rows, UndoEntry, UndoFile, Work};
pub use index_page::{IndexPageEntry, check_index_page, index_page_entry};
pub use laws::{numbers_follow_from_bytes, pages_have_one_value, records_have_one_value};
pub use log_info::{LogInfo, decode_log_info, encode_log_info};
pub use logical_pages::{
    Catalogue, CatalogueEntry, OpenEntry, OpenList, catalogue_entry_at, decode_catalogue,
    decode_open_list, encode_catalogue, encode_open_list, set_catalogue_entry,
};
pub use medium_pages::{
    LiveSet, MediumHeader, decode_live_set, decode_medium_header, encode_live_set,
    encode_medium_header,
};
pub use numbers::{byte_at, u16_at, u32_at};
pub use page_sections::{PageHead, page_head};
pub use paged::{Pages, PairEdit};
pub use restart_record::{
    AreaState, RestartRecord, SnapshotEntry, decode_restart_record, decode_snapshot_entry,
    encode_restart_record, encode_snapshot_entry,
};
pub use row_leaf::{RowLeafEntry, check_row_leaf, row_leaf_entry};
pub use undo_page::{UndoPageEntry, check_undo_page, undo_page_entry};
