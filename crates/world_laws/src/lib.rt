//! Laws of worlds and operations, which say that the definitions mean what they are named for. Each is a function that
//! does nothing, whose contract is the law.
#![tactic(auto)]

ghost use Rattle.std.specs.Prelude.{◌≡◌, ℕ, ◌<◌, ◌≤◌, true, List, [], map, length, slice_get, pos, None, Some};
ghost use Rattle.ent_types.specs.declared.entity.Entity.{Entity};
ghost use Rattle.ent_types.specs.declared.kinds.FieldKind.TheVariants.{I64};
ghost use Rattle.ent_types.specs.declared.type_info.TypeInfo.{TypeInfo};
ghost use Rattle.ent_types.specs.declared.value.Value.TheVariants.{Int};
ghost use Rattle.ent_types.specs.Fitting.{null_entity, fits_field};
ghost use Rattle.ent_types.specs.Registries.{IsLawfulRegistry};
ghost use Rattle.world_model.specs.Members.{In, AreDistinct};
ghost use Rattle.world_model.specs.World.{World, capacity};
ghost use Rattle.world_model.specs.Found.{Found, placed, found, found_by_index, alive_count, entities_by_index};
ghost use Rattle.world_model.specs.Ids.{room, next_ids};
ghost use Rattle.world_model.specs.Operations.{Operation, operate};
ghost use Rattle.world_model.specs.Lawful.{IsLawful, HasRoomForParts, Suits};
ghost use Rattle.world_model.specs.Versions.{world_versions, answer_versions, IsLawfulCode};
ghost use Rattle.world_model.specs.Scenes.{Node, IsLawfulNode, built, node_renamings, renamings, renamed, value_renamed, arrivals, row_moved, attached, moved};
ghost use Rattle.world_laws.specs.SceneRows.{AreLawfulNodes, file_entities, file_rows};

/// Where a block has room for rows of some types, it has room for rows of a part of them.
#[tactic(auto, using(crate::proofs::Meanings::capacity_fits))]
pub fn parts_have_room()
    ensures { (registry : List TypeInfo) → HasRoomForParts (capacity registry) }
{}

/// An operation keeps a world lawful.
pub fn operations_keep_lawful()
    ensures { (capacity : List ℕ → ℕ) → HasRoomForParts capacity → (w : World) (operation : Operation) → Suits w.registry operation
        → IsLawful capacity w → IsLawful capacity (operate capacity w operation).world }
{}

/// In a lawful world a row is the one that is found by its entity, and no other row has its index.
pub fn each_entity_is_there_once()
    ensures found { (capacity : List ℕ → ℕ) (w : World) → IsLawful capacity w → (x : Found) → In x (placed w.blocks) → found x.row.entity w.blocks ≡ Some x }
    ensures index { (capacity : List ℕ → ℕ) (w : World) → IsLawful capacity w → (x y : Found) → In x (placed w.blocks) → In y (placed w.blocks)
        → x.row.entity.index ≡ y.row.entity.index → x ≡ y }
{}

/// In a lawful world the null entity isn't alive, nor is any other entity with version 0, nor one that is free; and the index of
/// an alive one was made.
pub fn who_is_not_alive()
    ensures null { (capacity : List ℕ → ℕ) (w : World) → IsLawful capacity w → found null_entity w.blocks ≡ None }
    ensures zero { (capacity : List ℕ → ℕ) (w : World) → IsLawful capacity w → (e : Entity) → e.version ≡ 0 → found e w.blocks ≡ None }
    ensures free { (capacity : List ℕ → ℕ) (w : World) → IsLawful capacity w → (e : Entity) → In e w.free → found e w.blocks ≡ None }
    ensures made { (capacity : List ℕ → ℕ) (w : World) → IsLawful capacity w → (x : Found) → In x (placed w.blocks) → x.row.entity.index < w.made }
{}

/// An operation on a world with versions, or a scene moved into it, gives what it gives on the world with moments, with
/// versions in their place. The versions of the scene are not read.
pub fn versions_stand_for_moments()
    ensures operations { (version : ℕ → ℕ) (capacity : List ℕ → ℕ) (w : World) (operation : Operation)
        → operate capacity (world_versions version w) operation ≡ answer_versions version (operate capacity w operation) }
    ensures moved { (version own : ℕ → ℕ) (w scene : World) → moved (world_versions version w) (world_versions own scene) ≡ world_versions version (moved w scene) }
    ensures attached { (version own : ℕ → ℕ) (w scene : World) → attached (world_versions version w) (world_versions own scene) ≡ world_versions version (attached w scene) }
{}

/// An operation, or a scene moved in, keeps a world of the code lawful.
pub fn code_stays_lawful()
    ensures moved { (capacity : List ℕ → ℕ) (code scene : World) → IsLawfulCode capacity code → IsLawfulCode capacity scene
        → scene.registry ≡ code.registry → alive_count scene ≤ room code → IsLawfulCode capacity (moved code scene) }
    ensures operations { (capacity : List ℕ → ℕ) → HasRoomForParts capacity → (code : World) (operation : Operation) → Suits code.registry operation
        → IsLawfulCode capacity code → IsLawfulCode capacity (operate capacity code operation).world }
{}

/// The world of lawful nodes is lawful.
pub fn built_scenes_are_lawful()
    ensures { (capacity : List ℕ → ℕ) → HasRoomForParts capacity → (registry : List TypeInfo) → IsLawfulRegistry registry
        → (load : ℕ) → fits_field I64 (Int (pos load)) ≡ true → (nodes : List Node) → ((node : Node) → In node nodes → IsLawfulNode registry node)
        → IsLawful capacity (built capacity registry nodes load) }
{}

/// A lawful world with room for the entities of a lawful scene is lawful after the scene was moved in or attached.
pub fn moved_scenes_are_lawful()
    ensures moved { (capacity : List ℕ → ℕ) (w scene : World) → IsLawful capacity w → IsLawful capacity scene → scene.registry ≡ w.registry → alive_count scene ≤ room w
        → IsLawful capacity (moved w scene) }
    ensures attached { (capacity : List ℕ → ℕ) (w scene : World) → IsLawful capacity w → IsLawful capacity scene → scene.registry ≡ w.registry → alive_count scene ≤ room w
        → IsLawful capacity (attached w scene) }
{}

/// The entities of a scene get the next ids of the world, in order of their indexes. None of these ids is alive in the
/// world, and no two have one index. Every entity that isn't alive in the scene becomes null.
pub fn arrivals_get_new_ids()
    ensures order { (capacity : List ℕ → ℕ) (w scene : World) → IsLawful capacity scene
        → map (renamed (arrivals w scene)) (entities_by_index scene) ≡ next_ids (alive_count scene) w.free w.made w.first_entity_version }
    ensures new { (capacity : List ℕ → ℕ) (w : World) → IsLawful capacity w → (n : ℕ) (e : Entity) → In e (next_ids n w.free w.made w.first_entity_version)
        → found e w.blocks ≡ None }
    ensures distinct { (capacity : List ℕ → ℕ) (w : World) → IsLawful capacity w → (n : ℕ)
        → AreDistinct (map (λ (e : Entity). e.index) (next_ids n w.free w.made w.first_entity_version)) }
    ensures others { (capacity : List ℕ → ℕ) (w scene : World) → IsLawful capacity scene → (e : Entity) → found e scene.blocks ≡ None
        → renamed (arrivals w scene) e ≡ null_entity }
{}

/// After a scene was moved in, each row of the scene is found by its new entity, with all references renamed, and each
/// row of the world is found as before.
pub fn moved_scenes_keep_rows()
    ensures scene { (capacity : List ℕ → ℕ) (w scene : World) → IsLawful capacity w → IsLawful capacity scene → scene.registry ≡ w.registry → alive_count scene ≤ room w
        → (x : Found) → In x (placed scene.blocks)
        → found (renamed (arrivals w scene) x.row.entity) (moved w scene).blocks ≡ Some (record x { row = row_moved (arrivals w scene) (value_renamed (arrivals w scene)) x.row }) }
    ensures world { (capacity : List ℕ → ℕ) (w scene : World) → IsLawful capacity w → IsLawful capacity scene → scene.registry ≡ w.registry → alive_count scene ≤ room w
        → (x : Found) → In x (placed w.blocks) → found x.row.entity (moved w scene).blocks ≡ Some x }
{}

/// In the world that is built of a scene's nodes, the rows by index are those of the nodes in file order. The node at place k
/// is the entity k:1. A reference to a node follows it, and every other one is null.
pub fn built_scenes_keep_file_order()
    ensures rows { (capacity : List ℕ → ℕ) → HasRoomForParts capacity → (registry : List TypeInfo) → IsLawfulRegistry registry
        → (load : ℕ) → fits_field I64 (Int (pos load)) ≡ true → (nodes : List Node) → AreLawfulNodes capacity registry load nodes
        → found_by_index (built capacity registry nodes load) ≡ file_rows registry load nodes (next_ids (length nodes) [] 0 1) }
    ensures names { (capacity : List ℕ → ℕ) (registry : List TypeInfo) (load : ℕ) (nodes : List Node) → AreLawfulNodes capacity registry load nodes
        → map (renamed (node_renamings nodes)) (file_entities nodes) ≡ next_ids (length nodes) [] 0 1 }
    ensures fresh { (n k : ℕ) → k < n → slice_get (next_ids n [] 0 1) k ≡ Some (record { index = k; version = 1 }) }
{}

/// A scene that is built of nodes and moved into a world: each node gets an id, in file order, and its row is found by that
/// id. The ids are new and distinct. A reference to a node becomes the node's id, and every other one becomes null.
pub fn scenes_arrive_in_file_order()
    ensures rows { (capacity : List ℕ → ℕ) → HasRoomForParts capacity → (w : World) → IsLawful capacity w
        → (load : ℕ) → fits_field I64 (Int (pos load)) ≡ true → (nodes : List Node) → AreLawfulNodes capacity w.registry load nodes → length nodes ≤ room w
        → (x : Found) → In x (file_rows w.registry load nodes (next_ids (length nodes) w.free w.made w.first_entity_version))
        → found x.row.entity (moved w (built capacity w.registry nodes load)).blocks ≡ Some x }
    ensures count { (capacity : List ℕ → ℕ) → HasRoomForParts capacity → (w : World) → IsLawful capacity w
        → (load : ℕ) → fits_field I64 (Int (pos load)) ≡ true → (nodes : List Node) → AreLawfulNodes capacity w.registry load nodes
        → alive_count (built capacity w.registry nodes load) ≡ length nodes }
    ensures names { (capacity : List ℕ → ℕ) (w : World) (load : ℕ) (nodes : List Node) → AreLawfulNodes capacity w.registry load nodes
        → map (renamed (renamings (file_entities nodes) (next_ids (length nodes) w.free w.made w.first_entity_version))) (file_entities nodes)
        ≡ next_ids (length nodes) w.free w.made w.first_entity_version }
    ensures others { (nodes : List Node) (ids : List Entity) (e : Entity) → (In e (file_entities nodes) → ⊥)
        → renamed (renamings (file_entities nodes) ids) e ≡ null_entity }
    ensures new { (capacity : List ℕ → ℕ) (w : World) → IsLawful capacity w → (n : ℕ) (e : Entity) → In e (next_ids n w.free w.made w.first_entity_version)
        → found e w.blocks ≡ None }
    ensures distinct { (capacity : List ℕ → ℕ) (w : World) → IsLawful capacity w → (n : ℕ)
        → AreDistinct (map (λ (e : Entity). e.index) (next_ids n w.free w.made w.first_entity_version)) }
{}
