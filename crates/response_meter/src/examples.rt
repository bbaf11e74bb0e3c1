//! The order in which a reply is tested, computed by the definitions alone: of several tests that a reply
//! does not pass, the one that comes first is told.

ghost use Rattle.std.specs.Prelude.{◌≡◌, true, [], Some, codes};
ghost use Rattle.serde_json.specs.Data.{null as json_null, boolean, string, object as json_object, no_members, member, item, no_items};
ghost use Rattle.response_model.specs.Examples.{added_alias};
ghost use Rattle.response_meter.specs.declared.fault.Why.TheVariants.{BadErrors, NoData, MissingKey, ExtraKey, NullHere, BadType, BadObject};
ghost use Rattle.response_meter.specs.Faults.{not_response, size_broken};
ghost use Rattle.response_meter.specs.Examples.{fault_of_entries, fault_of_search, at_result, fault_of_friends, at_friends, at_friend_id};

/// The errors come first, then that there is data or an error, and then the data.
pub fn errors_before_data()
    ensures before_none { fault_of_entries (member (codes "errors") (boolean true) no_members) ≡ Some (not_response [] BadErrors) }
    ensures before_bad { fault_of_entries (member (codes "data") (boolean true) (member (codes "errors") (boolean true) no_members)) ≡ Some (not_response [] BadErrors) }
    ensures neither { fault_of_entries no_members ≡ Some (not_response [] NoData) }
{}

/// Where several types are possible there is an object; it names its type; and it has no key too many, before
/// its entries come.
pub fn object_then_type_then_keys()
    ensures is_object { fault_of_search (item (boolean true) no_items) ≡ Some (not_response (at_result 0) BadObject) }
    ensures has_type { fault_of_search (item (json_object (member (codes "other") json_null no_members)) no_items) ≡ Some (not_response (at_result 0) BadType) }
    ensures no_more_keys { fault_of_search (item (json_object (member added_alias (string (codes "User")) (member (codes "other") json_null no_members))) no_items) ≡ Some (not_response (at_result 0) ExtraKey) }
{}

/// The entries come in the order of the plan, whatever their order in the reply, and each with all that stands
/// below it.
pub fn entries_in_plan_order()
    ensures absent { fault_of_friends (item (json_object no_members) no_items) ≡ Some (not_response (at_friend_id 0) MissingKey) }
    ensures bad { fault_of_friends (item (json_object (member (codes "friends") (boolean true) (member (codes "id") json_null no_members))) no_items) ≡ Some (not_response (at_friend_id 0) NullHere) }
    ensures items { fault_of_friends (item (json_object no_members) (item json_null no_items)) ≡ Some (not_response (at_friend_id 0) MissingKey) }
{}

/// The size of a list comes before its items.
pub fn size_before_items()
    ensures { fault_of_friends (item json_null (item json_null (item json_null (item json_null no_items)))) ≡ Some (size_broken at_friends 3 4) }
{}
