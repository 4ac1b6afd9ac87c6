//! What a tree of the converter means. The function does nothing: its contract is the law.
ghost use Rattle.std.specs.Prelude.{◌≡◌, ℕ, ◌+◌, List, length, map, take, drop, Some};
ghost use Rattle.mdb_bytes.specs.declared.converter_pages.ConverterEntry.{ConverterEntry};
ghost use Rattle.mdb_bytes.specs.Firsts.{leaf_count};
ghost use Rattle.mdb_bytes.specs.KeptMaps.{kept_map, placed, pages_at};
ghost use Rattle.converter.specs.Maps.{block_of};
ghost use Rattle.converter.specs.Tree.{HasTree};

/// Where a map stands on its blocks, the bytes there name this map and no other: its root and
/// leaves, and each of its pages with the block and the stamp that the map has for it.
pub fn tree_names_its_map()
    ensures { (row : ℕ → List ℕ) (m : List ConverterEntry) (blocks : ℕ)
        → length m ≡ 1 + leaf_count blocks + blocks → HasTree m (1 + leaf_count blocks) row
        → kept_map row blocks (block_of m 0)
        ≡ Some record {
          converter = map (λ e. e.block) (take (1 + leaf_count blocks) m);
          places = placed (drop (1 + leaf_count blocks) m);
          pages = pages_at row blocks (placed (drop (1 + leaf_count blocks) m));
        } }
{}
