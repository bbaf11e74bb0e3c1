//! Small operations, their bounds, responses and replies, computed by the definitions alone.

ghost use Rattle.std.specs.Prelude.{true, false, List, [], ◌∷◌, codes, Some, None, ◌≡◌, ◌+◌, ◌*◌, negsuc};
ghost use Rattle.serde_json.specs.Data.{null as json_null, boolean, number, string, array, unsigned, negative, object as json_object, no_items, item, no_members, member};
ghost use Rattle.response_model.specs.Plan.{single};
ghost use Rattle.response_model.specs.Response.{Tree, null, leaf, object, element, no_element, entry, no_entry, Fits, SizesKept};
ghost use Rattle.response_model.specs.Reading.{Reads, ReadsReply};
ghost use Rattle.response_model.specs.Cost.{types, fields, cost};
ghost use Rattle.response_model.specs.Bound.{IsBound, IsResponse};
ghost use Rattle.response_model.specs.Filled.{filled};
ghost use Rattle.response_model.specs.Errors.{errors_of};
ghost use Rattle.response_model.specs.ResponseText.{response_text};
ghost use Rattle.response_model.specs.Examples.{one, half, quarter, tenth, name_of_type, holds_string, added_alias, plain, text, friends_of_friends, search, asked_search, of_id, user_of_three, post_of_author, found, five, names_of_friends, befriended, named, tags_and_kind, tagged, search_reply, post_members, tags_reply, find, user_or_post, one_node, failed, unplaced, failed_json, unplaced_json};

/// Three friends of three friends: 1 + 1 + 3 + 9 values, and as field cost 1 + 1 + 3 + 9 times 0.25.
pub fn bound_of_friends()
    ensures types_cost { IsBound holds_string types friends_of_friends (14 * one) }
    ensures fields_cost { IsBound holds_string fields friends_of_friends (7 * one + quarter) }
{}

/// Five users have the greatest type cost, five posts the greatest field cost.
pub fn bound_of_search()
    ensures types_cost { IsBound holds_string types search (21 * one) }
    ensures types_attained { filled types search ≡ found (five user_of_three) }
    ensures fields_cost { IsBound holds_string fields search (21 * one) }
    ensures fields_attained { filled fields search ≡ found (five post_of_author) }
    ensures others_cost { (cost fields search (found (five user_of_three)) ≡ 6 * one) × (cost types search (found (five post_of_author)) ≡ 18 * one + half) }
{}

/// The cost of an entry's arguments is part of the field cost.
pub fn bound_with_arguments()
    ensures types_cost { IsBound holds_string types find one }
    ensures fields_cost { IsBound holds_string fields find (4 * one + half + 2 * tenth) }
{}

/// A list of any length costs what its entry costs, and `__typename` nothing.
pub fn list_of_any_length()
    ensures types_cost { IsBound holds_string types tags_and_kind one }
    ensures fields_cost { IsBound holds_string fields tags_and_kind half }
    ensures allowed { IsResponse holds_string tags_and_kind (tagged (five (leaf (string (codes "a")))) (codes "Query")) }
    ensures empty { filled fields tags_and_kind ≡ tagged no_element (codes "Query") }
{}

/// Of two types that cost the same the first fills the response.
pub fn first_of_equals()
    ensures types_attained { filled types user_or_post ≡ one_node of_id }
    ensures fields_attained { filled fields user_or_post ≡ one_node of_id }
{}

/// A null adds nothing, and stands only where the plan allows it: as the whole response, and apart from that by the form of its entry.
pub fn null_adds_nothing()
    ensures item_allowed { IsResponse holds_string search (found (element null (element post_of_author no_element))) }
    ensures types_cost { cost types search (found (element null (element post_of_author no_element))) ≡ 4 * one + half }
    ensures fields_cost { cost fields search (found (element null (element post_of_author no_element))) ≡ 5 * one }
    ensures root_allowed { IsResponse holds_string search null × (cost types search null ≡ 0) × (cost fields search null ≡ 0) }
    ensures list_allowed { IsResponse holds_string tags_and_kind (object 0 (entry (codes "tags") null (entry (codes "kind") (leaf (string (codes "Query"))) no_entry))) }
    ensures item_refused { IsResponse holds_string tags_and_kind (tagged (element null no_element) (codes "Query")) → ⊥ }
{}

/// An entry counts once, whatever the length of its list, and also where its value is null.
pub fn entry_counts_once()
    ensures three { cost fields names_of_friends (befriended (element (named (leaf (string []))) (element (named null) (element (named null) no_element)))) ≡ 2 * one + half + quarter }
    ensures none { cost fields names_of_friends (befriended no_element) ≡ 2 * one }
    ensures absent { cost fields names_of_friends (object 0 (entry (codes "user") null no_entry)) ≡ one }
{}

/// Four friends fit where three are declared, and don't keep the size; three keep it.
pub fn four_friends()
    ensures fits { Fits holds_string (single true) names_of_friends (befriended (element (named null) (element (named null) (element (named null) (element (named null) no_element))))) }
    ensures too_many { SizesKept None names_of_friends (befriended (element (named null) (element (named null) (element (named null) (element (named null) no_element))))) → ⊥ }
    ensures enough { SizesKept None names_of_friends (befriended (element (named null) (element (named null) (element (named null) no_element)))) }
{}

/// A leaf holds what its type holds, and never null: a text is no truth value, and `__typename` no name but that of its object.
pub fn leaf_holds()
    ensures null_refused { IsResponse (λ type value. true) tags_and_kind (tagged (element (leaf json_null) no_element) (codes "Query")) → ⊥ }
    ensures truth_refused { IsResponse holds_string tags_and_kind (tagged (element (leaf (boolean true)) no_element) (codes "Query")) → ⊥ }
    ensures name_refused { IsResponse holds_string tags_and_kind (tagged no_element (codes "User")) → ⊥ }
{}

/// An object is of a possible type, and has the entries of that type's nodes in their order.
pub fn object_has_its_entries()
    ensures other_type { IsResponse holds_string search (found (element (object 0 no_entry) no_element)) → ⊥ }
    ensures of_another { IsResponse holds_string user_or_post (one_node (object 2 (entry (codes "name") (leaf (string [])) no_entry))) → ⊥ }
    ensures missing { IsResponse holds_string tags_and_kind (object 0 (entry (codes "tags") null no_entry)) → ⊥ }
    ensures further { IsResponse holds_string user_or_post (object 0 (entry (codes "node") null (entry (codes "node") null no_entry))) → ⊥ }
    ensures other_order { IsResponse holds_string tags_and_kind (object 0 (entry (codes "kind") (leaf (string (codes "Query"))) (entry (codes "tags") null no_entry))) → ⊥ }
{}

/// A reply with the added alias reads as the tree without it, in the order of the nodes.
pub fn reply_read()
    ensures read { ReadsReply name_of_type added_alias search (search_reply (post_members no_members)) (found (element post_of_author (element null no_element))) }
    ensures known_types { (t : Tree) → ReadsReply name_of_type added_alias search (search_reply (member added_alias (string (codes "Query")) no_members)) t → ⊥ }
    ensures known_keys { (t : Tree) → ReadsReply name_of_type added_alias search (search_reply (post_members (member (codes "title") json_null no_members))) t → ⊥ }
    ensures all_keys { (t : Tree) → ReadsReply name_of_type added_alias search (search_reply (member added_alias (string (codes "Post")) no_members)) t → ⊥ }
    ensures in_order { ReadsReply name_of_type added_alias tags_and_kind (tags_reply (array (item json_null no_items))) (tagged (element null no_element) (codes "Query")) }
    ensures list_due { (t : Tree) → ReadsReply name_of_type added_alias tags_and_kind (tags_reply (string [])) t → ⊥ }
    ensures any_leaf { Reads name_of_type added_alias (single false) false text (array no_items) (leaf (array no_items)) }
{}

/// A response has its errors first, and then its data, without spaces.
pub fn response_texts()
    ensures data { response_text (Some (one_node null)) [] ≡ codes "{\"data\":{\"node\":null}}" }
    ensures list { response_text (Some (tagged (element (leaf (string (codes "a"))) (element null no_element)) (codes "Query"))) [] ≡ codes "{\"data\":{\"tags\":[\"a\",null],\"kind\":\"Query\"}}" }
    ensures errors { response_text None (failed ∷ unplaced ∷ []) ≡ codes "{\"errors\":[{\"message\":\"x\",\"path\":[\"search\",1]},{\"message\":\"y\"}]}" }
    ensures both { response_text (Some null) (unplaced ∷ []) ≡ codes "{\"errors\":[{\"message\":\"y\"}],\"data\":null}" }
{}

/// An error is read with its message and its path, and without its further members.
pub fn errors_read()
    ensures absent { errors_of None ≡ Some [] }
    ensures null { errors_of (Some json_null) ≡ Some [] }
    ensures empty { errors_of (Some (array no_items)) ≡ Some [] }
    ensures read { errors_of (Some (array (item (failed_json (array (item (string (codes "search")) (item (number (unsigned 1)) no_items)))) (item unplaced_json no_items)))) ≡ Some (failed ∷ unplaced ∷ []) }
    ensures below_zero { errors_of (Some (array (item (failed_json (array (item (number (negative (negsuc 0))) no_items))) no_items))) ≡ None }
    ensures no_list { errors_of (Some unplaced_json) ≡ None }
    ensures no_message { errors_of (Some (array (item (json_object no_members) no_items))) ≡ None }
{}
