//! The laws of careful runs for tenants: a tenant in the synchronous mode that stores no tags
//! itself and whose heap calls are careful is in a state that `tag_laws` is about, along its
//! instructions, over the ends of its slices, and in a session next to any other tenants.

ghost use Rattle.mte_laws.specs.TenantLaws.{TenantsStartSound, SlicesStaySound};
ghost use Rattle.mte_laws.specs.TenantLaws.{TenantsStaySound, ReusedTagsStayDifferent};
ghost use Rattle.mte_laws.specs.TenantLaws.{FreedBlocksStayRefused};
ghost use Rattle.mte_laws.specs.TenantLaws.{FreedBlocksOfTenantsAreRefused};
ghost use Rattle.mte_laws.specs.TenantLaws.{FreedPagesOfTenantsAreRefused};
ghost use Rattle.mte_laws.specs.TenantLaws.{ChunksOfTenantsAreGuarded};
ghost use Rattle.mte_laws.specs.TenantCalls.{ChunksOfTenantsMayBeUsed, ServicesAreCalls};
ghost use Rattle.mte_laws.specs.TenantCalls.{AskedBytesOfTenantsMayBeUsed};

/// The premises of the laws hold of a tenant that is admitted, and after each slice of careful
/// instructions: of each tenant of a host whose slices were careful, whatever the other tenants
/// did.
pub fn careful_tenants_are_sound()
    ensures start { TenantsStartSound }
    ensures slices { SlicesStaySound }
    ensures sessions { TenantsStaySound }
{}

/// From the instruction that frees a chunk of a size class until an allocation takes its block,
/// each checked access through the pointer to it that touches one of its granules faults, whatever
/// careful instructions, and in a session whatever slices, come between.
pub fn freed_chunks_of_tenants_are_refused()
    ensures instructions { FreedBlocksStayRefused }
    ensures sessions { FreedBlocksOfTenantsAreRefused }
{}

/// In a session each access to an address of the range of chunks with pages of their own that no
/// mapping of the tenant's heap holds faults.
pub fn freed_pages_of_tenants_are_refused()
    ensures { FreedPagesOfTenantsAreRefused }
{}

/// In a session each checked access through the pointer to a live chunk of a size class of the
/// tenant that touches the granule just before or just after it faults.
pub fn chunks_of_tenants_are_guarded()
    ensures { ChunksOfTenantsAreGuarded }
{}

/// The first allocation that takes the block of a chunk that an instruction freed, where it gives
/// out the same address, has another tag than the one that the free gave, whatever careful
/// instructions come between.
pub fn reused_tags_of_tenants_differ()
    ensures { ReusedTagsStayDifferent }
{}

/// In a session no read and no write through the pointer to a live chunk of the tenant faults,
/// checked or not, whose bytes lie in the chunk's granules or in pages of its own.
pub fn chunks_of_tenants_may_be_used()
    ensures { ChunksOfTenantsMayBeUsed }
{}

/// The bytes that a careful service of the heap asks for may be used through what the tenant finds
/// in x0 after it, where this is not the null pointer.
pub fn answers_of_tenants_are_pointers()
    ensures { AskedBytesOfTenantsMayBeUsed }
{}

/// The next heap call of a careful tenant is a careful call of a sound state, and leaves the state
/// that the call leaves. So what a law says of calls it says of a tenant's.
pub fn services_are_calls()
    ensures { ServicesAreCalls }
{}
