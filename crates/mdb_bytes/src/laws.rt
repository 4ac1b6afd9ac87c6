//! What holds of every spelling. The functions do nothing: their contracts are the laws.
ghost use Rattle.std.specs.Prelude.{ℕ};
ghost use Rattle.mdb_bytes.specs.SlotRecords.{log_info_format, restart_format, snapshot_format};
ghost use Rattle.mdb_bytes.specs.ConverterPages.{converter_root_format, converter_leaf_format};
ghost use Rattle.mdb_bytes.specs.LogicalPages.{catalogue_format, open_list_format};
ghost use Rattle.mdb_bytes.specs.MediumPages.{medium_header_format, live_set_format, check_report_format};
ghost use Rattle.mdb_bytes.specs.TablePages.{row_leaf_format, index_format};
ghost use Rattle.mdb_bytes.specs.UndoPages.{undo_page_format};
ghost use Rattle.mdb_bytes.specs.Groups.{group_format};
ghost use Rattle.mdb_bytes.specs.SpellingLaws.{NumbersReadBack, BytesSpellBack, HasOneValue};

/// Numbers and their bytes, the highest first, follow from one another.
pub fn numbers_follow_from_bytes()
    ensures numbers { NumbersReadBack }
    ensures bytes { BytesSpellBack }
{}

/// Bytes spell one value at most, of each fixed record.
pub fn records_have_one_value()
    ensures log_info { HasOneValue log_info_format }
    ensures restart { HasOneValue restart_format }
    ensures snapshot { HasOneValue snapshot_format }
    ensures converter_root { HasOneValue converter_root_format }
    ensures converter_leaf { HasOneValue converter_leaf_format }
    ensures catalogue { HasOneValue catalogue_format }
    ensures open_list { HasOneValue open_list_format }
    ensures medium_header { HasOneValue medium_header_format }
    ensures live_set { HasOneValue live_set_format }
    ensures check_report { HasOneValue check_report_format }
{}

/// Bytes spell one value at most, of each page of entries and of a commit group.
pub fn pages_have_one_value()
    ensures row_leaf { (longest : ℕ) → HasOneValue (row_leaf_format longest) }
    ensures index_page { HasOneValue index_format }
    ensures undo_page { (longest : ℕ) → HasOneValue (undo_page_format longest) }
    ensures group { HasOneValue group_format }
{}
